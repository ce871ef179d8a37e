//! Functions of at most six bits, as words of 64 rows: what they span, and how one is made of
//! others by few products. Of none of it anything is promised.
#![tactic(auto)]

mod functions;
mod halves;
mod programs;
mod spans;

pub use halves::{from_variables, is_easy};
pub use programs::{Program, program_for};
pub use spans::{ONE, Span, VARIABLES, bit, has, mask_of, mask_of_parts, parts_of, word_of};
