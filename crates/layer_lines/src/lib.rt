//! Lines of a plan that goes by layers: nodes on lines of their own, and temporary lines that hold
//! sums of bits, the factors of products, until they are wanted for others.
#![tactic(auto)]

mod clock;
mod depth;
mod forms;
mod free;
mod lines;

pub use lines::Lines;
