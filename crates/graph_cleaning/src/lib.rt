//! Graphs of sums over symbols cleaned, and their products of many sums grouped anew, without a
//! search. Of none of the changes anything is promised.
#![tactic(auto)]

mod cleaning;
mod conjunctions;
mod grouping;
mod joining;

pub use cleaning::{clean, drop_zeros};
pub use grouping::regroup;
