//! Reversible circuits of multiply controlled flips and swaps, and the map of bits that a circuit
//! makes.
#![tactic(auto)]

mod circuit;
mod depth;
mod gate;
mod law;
mod size;

pub use circuit::{Circuit, GateFault};
pub use gate::{Control, Gate, Op};
pub use law::{flips_set, more_lines_stay, reversal, uncomputes, weights_are_kept};
pub use size::Counts;
