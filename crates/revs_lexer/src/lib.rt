//! The tokens of a program text, each with its place.
//!
//! A text is any bytes. It is cut from the front into blanks, comments and longest tokens; what
//! cannot be cut further is refused at its place.
#![tactic(auto)]

mod lexer;
mod packed;
mod sign;
mod token;
mod word;

pub use lexer::{MOST_DIGITS, limits_are, one_outcome, some_outcome, tokens};
pub use packed::{Packed, Rest, TokenList};
pub use sign::Sign;
pub use token::{Kind, LexFault, Tok, Token};
pub use word::Word;
