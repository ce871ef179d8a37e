//! Values of a run, and the lists of locations that registers are.
//!
//! A register aliases its locations: each call makes a list of locations, and copies no bit.
#![tactic(auto)]

mod shapes;
mod value;

pub use shapes::{ShapeFault, append, index, rotate, slice};
pub use value::{Value, bit, number, register};
