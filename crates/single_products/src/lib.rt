//! Graphs of sums in which a node has at most one product, and an output none.
#![tactic(auto)]

mod parting;
mod renumbering;
mod room;
mod single;
mod walk;

pub use single::single_products;
