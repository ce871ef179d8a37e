//! Products of exclusive sums of atoms, where a product that is not derived from known ones is
//! looked for as a function of a cut: of a few sums from which it and others can be computed.
//!
//! Which cuts are tried, and what is proposed of them, no answer rests on: the calls of `sum_cuts`
//! check it.
#![tactic(auto)]

mod cuts;
mod gone;
mod met;
mod reach;
mod regions;
mod sweep;
mod wide;
mod zeros;

pub use reach::Reach;
pub use sweep::Sweep;
