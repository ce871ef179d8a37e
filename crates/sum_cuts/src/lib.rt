//! Exclusive sums of atoms as functions of a cut: of a few sums from which they can be computed.
//!
//! Over one cut, sums with one truth table are equal wherever atoms have the values of their
//! products. What is proposed of a sum is checked by addition.
#![tactic(auto)]

ghost use Rattle.sum_cuts.specs.Cuts.{CutsDecide};

mod cut;
mod table;
mod wide;

pub use cut::{Cut, Function, MOST_SUMS};
pub use table::Table;
pub use wide::{Judgement, MOST_WIDE, Step, Steps, judge};

/// Over one cut, equal functions make equal sums. The function does nothing: its contract is the
/// law.
pub fn cuts_decide()
    ensures { CutsDecide }
{}
