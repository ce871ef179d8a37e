//! Graphs that are laid in layers: nodes with at most one product, their levels, where they are cut
//! into parts, and which of them go straight onto the lines of outputs.
#![tactic(auto)]

mod graph;
mod level;
mod parts;
mod straight;
pub mod tables;

pub use graph::{Factors, LayerGraph, Node, Onto};
pub use level::levels;
pub use parts::Widths;
pub use straight::straighten;
