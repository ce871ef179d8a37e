//! Plans of a graph of sums that keep each node on one line, some on the line of an output.
#![tactic(auto)]

mod draft;
mod nodes;
mod orders;
mod pebbling;
mod planning;
mod script;
mod weight;

pub use planning::plan;
