//! What is to be computed in place, as products of sums of symbols; and what vectors span.
#![tactic(auto)]

mod graphs;
mod spaces;
mod tapes;
mod task;
mod twins;
mod vectors;
mod wanted;

pub use graphs::task_of_graph;
pub use spaces::Space;
pub use tapes::task_of_tape;
pub use task::{Step, Task};
pub use vectors::{add, flip, has, head_of, is_none, symbols_of, words_for};
pub use wanted::{Moments, Wanted};
