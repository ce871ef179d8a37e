//! The graph that a plan with a state on the output lines sweeps: the nodes with a product of a
//! graph of sums in an order of their own, and everything else as sums of these.
#![tactic(auto)]

mod below;
mod graph;

pub use below::Below;
pub use graph::{StateGraph, StateNode, StateOutput};
