//! Circuits in place: the outputs of a graph of sums of single products take the lines of its
//! inputs. What is found is to be verified, so of it nothing is promised.
#![tactic(auto)]

mod basis;
mod closing;
mod lines;
mod placing;
mod planner;

pub use lines::Flip;
pub use planner::{Pace, plan, plan_tape};
