//! Graphs of sums over symbols, in which a search takes nodes out and puts them in, and tells each
//! change as a step. Of none of them anything is promised.
#![tactic(auto)]

mod graph;
mod order;
mod steps;
mod sums;

pub use graph::{GONE, Graph};
pub use order::{nodes_in_order, order_of};
pub use steps::{Opened, Proposal, Step, Sums};
pub use sums::{Affine, SymbolProduct, SymbolSum, mixed};
