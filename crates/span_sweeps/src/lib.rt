//! Sweeps over schedules from their ends, and the search for the schedule whose sweep makes the
//! best span plan. A sweep keeps a basis of what is wanted of lines at each moment, and so tells
//! which rows are made, what lines and gates a plan has then, and what its replay needs.
#![tactic(auto)]

mod blocks;
mod bounds;
mod events;
mod measures;
mod rule;
mod search;
mod shapes;
mod sweeper;
mod sweeping;
mod toggles;

pub use events::{End, Event, Factors, RowVector, Toggle};
pub use measures::Measures;
pub use search::{Candidate, Candidates, MOST_SWEPT, best_sweeps, limits_are};
pub use sweeping::{Sweep, sweep_over};
