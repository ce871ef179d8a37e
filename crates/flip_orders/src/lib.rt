//! Circuits of narrow gates in another order, for a smaller depth: the same gates, with the same
//! line map. Each flip has a step, which is raised where an earlier flip that is not free of it has
//! a later one, and the flips go by their steps; so what proposes the steps owes no proof.
#![tactic(auto)]

mod best;
mod depths;
mod orders;
mod steps;
mod windows;

pub use best::{best_order, with_best_order};
pub use steps::Goal;
