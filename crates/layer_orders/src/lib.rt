//! The order of gates between layers, for a small depth: a list schedule, the gates on the longest
//! way to the end first.
#![tactic(auto)]

mod groups;
mod heights;
mod schedule;

pub use groups::Step;
pub use schedule::best_order;
