//! Moves between lines, copies and toggles, of which planners make their plans: how the factors of
//! products are gathered, and which copies can be done without. A machine checks the moves one by
//! one, so nothing is proved of them here but that they come to an end.
#![tactic(auto)]

mod factors;
mod lines;
mod moves;
mod names;
mod shortening;
mod writing;

pub use lines::Factor;
pub use moves::{Gathering, Gatherings, Move, Moves};
pub use writing::Writing;
