//! Graphs of sums with fewer products: changes that a search proposes are done one after another,
//! each once it is checked that it keeps the values of all nodes, and what comes of them is written
//! as a graph of sums.
#![tactic(auto)]

mod counting;
mod definitions;
mod fewer;
mod order;
mod placing;
mod replay;
mod symbols;
mod writing;

pub use fewer::few_products;
