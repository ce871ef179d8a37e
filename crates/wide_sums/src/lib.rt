//! Sums whose products may be of any two sums of bits, and a test that such a sum vanishes wherever
//! nodes have the values of their definitions: over few sums of bits, by words of 64 rows.
#![tactic(auto)]

mod axes;
mod form;
mod known;
mod product;
mod sum;
mod window;

pub use axes::MOST_RANK;
pub use product::WideProduct;
pub use sum::WideSum;
pub use window::{Window, vanishes};
