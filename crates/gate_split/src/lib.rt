//! Circuits of narrow gates: a circuit of multiply controlled flips and swaps is split into flips
//! with at most two controls, all positive, over lines that may hold anything (Barenco and others,
//! 1995).
#![tactic(auto)]

mod counting;
mod fault;
mod idle;
mod law;
mod narrow;
mod piece;
mod walk;
mod wide;

pub use fault::SplitFault;
pub use law::{narrow_stay, roomy_flips_are_split, split_costs};
pub use narrow::{are_narrow, is_narrow};
pub use walk::{split, split_owned};
