//! Windows of graphs of sums over symbols: nodes that are written out over a few independent sums,
//! and how they grow. Of none of it anything is promised.
#![tactic(auto)]

mod growing;
mod windows;

pub use growing::{best_grown, grown};
pub use windows::{Known, Target, Width, Window, has_symbol};
