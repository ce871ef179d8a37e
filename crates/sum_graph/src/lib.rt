//! Graphs of sums: nodes that are sums of bits and of products of two sums of bits. The plain one
//! of a settled graph has its nodes, the lean one few of them.
#![tactic(auto)]

mod graph;
mod law;
mod placing;
mod plain;
mod shared;
mod slot;
mod walk;

pub use graph::SumGraph;
pub use law::plain_graphs_are_alike;
pub use placing::node_of;
