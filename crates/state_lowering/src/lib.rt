//! A graph of sums with at most one product a node is lowered to the graph that a sweep with a
//! state goes over: nodes with products get a symbol each, of which all else is a sum.
#![tactic(auto)]

mod lowering;
mod values;
mod weights;

pub use lowering::lower;
