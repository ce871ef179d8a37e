//! Fewer gates with the same map: cancelling pairs go out of a list of narrow gates, and runs of CX
//! gates give way to their Gaussian elimination where that is shorter.
#![tactic(auto)]

mod blocks;
mod rows;
mod sweep;
mod tidying;

pub use blocks::limits_are;
pub use tidying::tidy;
