//! The run of a program, once for all inputs: no bit is ever asked for, so the writes, the claims
//! and every refusal are the same for all of them, and the run leaves one tape.
#![tactic(auto)]

mod bindings;
mod fault;
mod leaps;
mod machine;
mod numbers;
mod operators;
mod program;
mod registers;
mod start;
mod terms;
mod writes;

pub use fault::RunFault;
pub use program::run;
