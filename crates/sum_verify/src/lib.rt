//! A circuit verified against a program by sums of products, for every input and whatever its
//! borrowed lines hold.
//!
//! Each node of the program and each line of the circuit is held as an exclusive sum of variables
//! and of whole products. A circuit is verified where each line ends with the sum that it should
//! have; where one does not, nothing is said of it.
#![tactic(auto)]

mod fault;
mod judging;
mod nodes;
mod outputs;
mod rewritten;
mod start;
mod verifying;
mod walking;

pub use fault::SumsFault;
pub use verifying::{Unsettled, verify, verify_by_cuts, verify_by_wide_cuts};
