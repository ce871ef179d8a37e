//! The parser: it makes a program of a list of tokens.
//!
//! Recursive descent with one token of look-ahead, linear in the tokens. A list of tokens that is
//! no sentence is refused at the first token that cannot stand where it stands, or at the first
//! that opens level 101.
#![tactic(auto)]

mod build;
mod expression;
mod front;
mod law;
mod leaf;
mod limits;
mod numbers;
mod program;
mod stop;

pub use law::one_program_of_text;
pub use limits::{MOST_BYTES, limits_are};
pub use program::{ParseFault, parse};
