//! Plans of a graph of sums for a small Toffoli depth: its products stand in layers, on lines that
//! are all different, and nodes are cleared beside what is made.
#![tactic(auto)]

mod planning;
mod writer;

pub use planning::plan;
