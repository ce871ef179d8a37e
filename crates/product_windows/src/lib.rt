//! How a graph of sums is left with fewer products: a search over windows of at most six sums. It
//! answers steps; of none of them anything is promised.
#![tactic(auto)]

mod pairing;
mod passes;
mod search;
mod wide;

pub use search::propose;
