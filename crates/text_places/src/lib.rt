//! What the lexers of the compiler share: kinds of bytes, the runs that they make, gaps between
//! tokens, places, and the values of digits.
#![tactic(auto)]

mod bytes;
mod gaps;
mod numbers;
mod places;

pub use bytes::{digits_len, is_blank, is_letter, is_name_byte, name_len};
pub use gaps::gap_len;
pub use numbers::{FITTING_DIGITS, limits_are, number};
pub use places::place_after;
