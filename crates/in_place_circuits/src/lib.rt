//! Circuits in place, each verified before it is answered.
#![tactic(auto)]

mod circuits;
mod finding;
mod searching;

pub use finding::find;
