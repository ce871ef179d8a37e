//! Circuits in the making, each of whose lines holds the exclusive or of a set of bits. Any list of
//! steps gives a clean plan within a budget, or none: so what chooses the steps owes no proof.
#![tactic(auto)]

mod ending;
mod gates;
mod gathers;
mod placing;
mod sets;
mod states;
mod steps;

pub use gathers::{Gather, Pair};
pub use states::LineStates;
pub use steps::{Step, follow};
