//! When the nodes of a graph of sums are made and cleared, where products stand in layers: each
//! node as late as its users let it be made, and cleared as soon as they are done with it.
#![tactic(auto)]

mod cleaning;
mod grouping;
mod needs;
mod progress;
mod room;
mod scheduling;
mod search;
mod times;

pub use cleaning::{Clearing, Left};
pub use room::Room;
pub use scheduling::{Demand, Layer, Timetable};
pub use search::{Found, best_timetable};
