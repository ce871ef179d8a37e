//! Circuits run on the bits of their lines: 64 contents of the lines at a time, 512, or any number.
#![tactic(auto)]

mod lanes;
mod packing;
mod planes;
mod rows;

pub use lanes::run_lanes;
pub use planes::run_planes;
pub use rows::{MOST_ROWS, limits_are, run_all};
