//! Which plan is laid: the first that fits a budget.
#![tactic(auto)]

mod choosing;
mod copied;
mod fewer;
mod laying;
mod lean;
mod planners;
mod scripts;
mod search;
mod shallow;
mod singles;

pub use choosing::choose;
