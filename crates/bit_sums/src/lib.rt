//! Exclusive sums of bits and of products of two sums of bits, of which lean circuits are made.
#![tactic(auto)]

mod bits;
mod factor;
mod growing;
mod limits;
mod product;
mod sum;
mod uses;

pub use bits::apart;
pub use factor::Factor;
pub use growing::{GrowingSum, MOST_JOINED};
pub use limits::{MOST_FACTOR_BITS, limits_are};
pub use product::Product;
pub use sum::Sum;
