//! Lists of flips under at most two controls, from narrow gates and back: each flip goes out with
//! the latest one like it that only flips free of it are behind, or stays; and what saves looks for
//! such pairs.
#![tactic(auto)]

mod circuits;
mod flip;
mod index;
mod looks;
mod marks;
mod spans;

pub use circuits::{circuit_of, flips_of};
pub use flip::{Controls, Flip};
pub use index::without_pairs;
pub use looks::{Latest, OnLines};
pub use marks::{Kinds, Marks};
pub use spans::{Span, Spans};
