//! The tokens of an OpenQASM text, one after another, each with its place.
//!
//! A text is any bytes. It is cut from the front into blanks, comments and the longest words; a
//! byte that begins none of these is a token of its own, so that a reader can say where it stands.
#![tactic(auto)]

mod law;
mod tokens;
mod words;

pub use law::{each_text_has_tokens, limits_are, one_way_to_cut};
pub use tokens::{Token, Tokens};
pub use words::{MOST_DIGITS, is_identifier, is_number};
