//! The terms of a program: what the parser makes of a sentence, with the places in the text.
//!
//! A chain of one operator, of arguments or of parts is one term with a vector, so a term is no
//! deeper than its brackets nest, and can be dropped and walked at any length.
#![tactic(auto)]

mod cause;
pub mod limits;
mod program;
mod term;

pub use cause::Cause;
pub use program::{Param, Program, has_outputs, leaves_tape, one_tape, same_for_all};
pub use term::{Ends, Item, Lambda, Name, Num, Part, Step, Steps, Sum, Term, Unit};
