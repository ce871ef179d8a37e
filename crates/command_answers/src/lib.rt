//! What commands answer: faults, each with its status and its line, and lines of bits and numbers.
#![tactic(auto)]

mod digits;
mod fault;
mod limit;
mod messages;

pub use digits::{is_input_word, write_digits, write_lines, write_number, write_numbers};
pub use fault::{CircuitRefusal, Fault, FaultKind, Refusal};
pub use limit::TextLimit;
pub use messages::report;
