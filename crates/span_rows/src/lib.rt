//! The rows that a sweep keeps: a basis of what is wanted of lines, with the additions by which it
//! changed. No two rows have the same greatest symbol.
#![tactic(auto)]

mod placing;
mod rows;

pub use rows::{Add, Insertions, Rows};
