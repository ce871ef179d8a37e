//! The gates that add the value of a sum to a line: bits by copies, and each product by a flip
//! under two lines on which its factors were gathered.
#![tactic(auto)]

mod gates;
mod gathering;
mod toggling;
mod weight;

pub use gates::{append_copies, push_copy, push_flip, push_one};
pub use toggling::append_sum;
pub use weight::weight_within;
