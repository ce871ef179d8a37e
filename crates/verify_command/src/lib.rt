//! The command that reads a program and a circuit: `verify`.
#![tactic(auto)]

mod comparing;
mod limits;
mod parting;
pub mod verify;
mod ways;

pub use limits::{MOST_SOURCE_BYTES, limits_are};
pub use parting::{part, sources_part_in_one_way};
