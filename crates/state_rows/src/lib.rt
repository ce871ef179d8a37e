//! The rows that a sweep with a state keeps: a basis of what is wanted of lines, in two layers, and
//! the steps by which it changed. No two rows have the same greatest symbol.
#![tactic(auto)]

mod placing;
mod rows;

pub use placing::Place;
pub use rows::{Layer, Mark, StateRows, Step, copy_of};
