//! Exclusive sums: polynomials over the field of two elements, and their merging into few cubes.
#![tactic(auto)]

mod cube;
mod law;
mod merging;
mod monomial;
mod poly;
mod products;

pub use cube::{Cube, Literal};
pub use law::determinacy;
pub use merging::merge;
pub use poly::{MOST_MONOMIALS, Poly, limits_are};
