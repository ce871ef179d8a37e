//! Canonical decision diagrams with an exact limit on their inner nodes.
//!
//! A diagram stands for functions of Boolean variables under one order of these variables. Each
//! function has one number, so two functions are equal exactly where their numbers are: the reduced
//! ordered binary decision diagrams of R. E. Bryant, "Graph-Based Algorithms for Boolean Function
//! Manipulation", IEEE Transactions on Computers C-35(8), 1986. A hash table finds a node by its
//! variable and branches, and a call takes no step twice that its memo has not forgotten.
#![tactic(auto)]

mod diagram;
mod memo;
mod node;

pub use diagram::{Diagram, canonical, limits_are};
pub use node::{Dd, DdFault};
