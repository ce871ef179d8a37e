//! Plans with a state on the output lines: the state is never undone, what is beneath it is. A
//! machine checks their moves one by one, so nothing is proved of a plan but that it comes to an
//! end.
#![tactic(auto)]

mod lives;
mod planner;
mod replaying;

pub use planner::plan;
