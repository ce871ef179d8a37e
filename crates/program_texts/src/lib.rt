//! The texts of programs: a program's text becomes its tape, and its claims are settled. With the
//! commands that need no more, `check` and `eval`.
#![tactic(auto)]

pub mod check;
pub mod eval;
mod fault;
mod program;
mod settling;

pub use program::tape_of_text;
pub use settling::settle_tape;
