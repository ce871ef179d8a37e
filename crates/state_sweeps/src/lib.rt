//! Sweeps over segments of nodes, from their end: rows of a state that is never undone, and rows
//! beneath it.
#![tactic(auto)]

mod growth;
mod needs;
mod pivots;
mod segments;
mod sweeper;
mod sweeping;
mod trunk;

pub use sweeping::{End, First, Sweep, Way, sweep_over};
pub use trunk::Trunk;
