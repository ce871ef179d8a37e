//! Span plans: the lines hold a basis of what is still wanted. A sweep over a schedule, from its
//! end, tells which rows that takes, and its replay makes the moves. A machine checks these one by
//! one, so nothing is proved here of a plan but that it comes to an end.
#![tactic(auto)]

mod planner;
mod replaying;
mod thinning;

pub use planner::plan;
