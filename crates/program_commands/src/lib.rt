//! The commands that make a circuit of a program, `compile` and `bench`, the one that makes a
//! program, `gen`, the one that makes either, `arith`, and the one that counts ANDs, `ands`.
#![tactic(auto)]

pub mod ands;
pub mod arith;
pub mod bench;
pub mod compile;
pub mod generate;
pub mod in_place;
mod ordering;
pub mod placed;
mod planning;
