//! A graph of sums is lowered to the graph that a span plan sweeps: its nodes get an order of their
//! own, and its outputs are written out as sums of what is copied to their lines.
#![tactic(auto)]

mod lowering;
mod order;
mod outputs;

pub use lowering::lower;
