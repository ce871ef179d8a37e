//! The graph whose nodes a span plan toggles, and the schedules by which it toggles them. It
//! borrows nothing from the graph of sums that it comes from.
#![tactic(auto)]

mod cones;
mod graph;
mod schedules;
mod thinning;

pub use cones::repeats;
pub use graph::{Node, Output, Product, SpanGraph};
pub use schedules::{Blocks, Range, Scheduling, Turn, chains, minima};
