//! A circuit verified against a program, for every input that is looked at and whatever its
//! borrowed lines hold.
//!
//! The functions of the program, of the circuit's lines and of the premise are made in one
//! decision diagram, one call for each gate. The circuit agrees exactly where each line ends with
//! the number that it should have, once each is restricted to the inputs that are looked at.
#![tactic(auto)]

mod compared;
mod fault;
mod gates;
mod judging;
mod law;
mod looking;
mod nodes;
mod outputs;
mod places;
mod verifying;
mod walking;

pub use compared::Compared;
pub use fault::{NotComparable, VerifyFault};
pub use gates::target_of;
pub use law::{comparisons_end_in_one_way, said_of_tapes};
pub use verifying::verify;
