//! How a graph of sums is left without products whose factors never meet, in any number of inputs.
//! Of none of the steps anything is promised.
#![tactic(auto)]

mod claims;
mod disjoint;

pub use disjoint::drop_disjoint;
