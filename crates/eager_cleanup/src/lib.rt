//! The eager plan: each node is computed once, and cleaned as soon as it was used for the last
//! time.
#![tactic(auto)]

mod cleaning;
mod known;
mod planning;

pub use planning::plan;
