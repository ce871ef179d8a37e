//! Products of exclusive sums of atoms: a product is known, or the sum of known ones, or an atom of
//! its own.
//!
//! Fingerprints tell which known products a new product may be the sum of; algebra over a basis of
//! all factors proves it. So nothing that is said of an answer rests on them.
#![tactic(auto)]

mod budget;
mod derive;
mod fault;
mod find;
mod index;
mod keys;
mod known;
mod marks;
mod products;
mod search;

pub use budget::limits_are;
pub use fault::ProductsFault;
pub use known::Known;
pub use products::Products;
