//! The copied plan of a settled graph: each node reads copies of its operands that nothing else
//! reads, so that the Toffoli depth is at most twice the AND depth.
#![tactic(auto)]

mod copying;
mod levels;
mod planning;

pub use levels::and_depth;
pub use planning::plan;
