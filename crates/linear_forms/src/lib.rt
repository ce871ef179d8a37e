//! Exclusive sums of atoms, and products of such sums over a basis of some of them.
#![tactic(auto)]

ghost use Rattle.linear_forms.specs.Limits.{LimitsAre};
ghost use Rattle.linear_forms.specs.Sums.{SumsAreBilinear, SymmetricSumsAreDiagonal};

mod basis;
mod fingerprint;
mod form;
mod pairs;

pub use basis::{Basis, MOST_MEMBERS};
pub use fingerprint::Fingerprint;
pub use form::{Form, Term};
pub use pairs::{Factor, Pair, linear_sum};

/// The limit is this number. The function does nothing: its contract is the law.
pub fn limits_are()
    ensures { LimitsAre }
{}

/// Where each product stands as often as the one with its factors exchanged, the products of
/// different factors cancel. The function does nothing: its contract is the law.
pub fn symmetric_sums_are_diagonal()
    ensures { SymmetricSumsAreDiagonal }
{}

/// A product of two sums is the sum of the products. The function does nothing: its contract is the
/// law.
pub fn sums_are_bilinear()
    ensures { SumsAreBilinear }
{}
