//! The dependency graph of a tape: each write and each output is a constant, an input or a node,
//! after constants are folded away.
#![tactic(auto)]

mod fold;
mod graph;
mod law;
mod node;
mod uses;

pub use graph::Graph;
pub use law::{graphs_are_no_wider, last_uses_tell_cuts};
pub use node::{Base, Node, Sig};
pub use uses::{MadeOfBases, last_uses, set_all_uses};
