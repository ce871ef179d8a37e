//! How a graph of sums is left with fewer products by the values that its nodes have in all rows of
//! few inputs, and by the rank of one node's products. Of none of it anything is promised.
#![tactic(auto)]

mod echelon;
mod needless;
mod quadratic;
mod rows;
mod spans;
mod tables;

pub use echelon::{CONSTANT, Echelon};
pub use needless::drop_needless;
pub use quadratic::by_rank;
pub use rows::{Rows, add, give};
pub use tables::by_table;
