//! Pebbling by halves (Bennett, Time/space trade-offs for reversible computation, 1989), down to
//! blocks of nodes.
#![tactic(auto)]

mod block;
mod changing;
mod needs;
mod planning;

pub use planning::plan;
