//! The commands that read a circuit: `stat`, `run`, `convert` and `tidy`.
#![tactic(auto)]

mod circuit;
pub mod convert;
mod limits;
pub mod run;
pub mod stat;
pub mod tidy;

pub use circuit::{MarkedCircuit, read_circuit};
pub use limits::{MOST_CIRCUIT_BYTES, MOST_TIDIED_GATES, limits_are};
