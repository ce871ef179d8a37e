//! Products of a node of a graph of sums made anew over a window, with fewer products. Of none of
//! the steps anything is promised.
#![tactic(auto)]

mod naming;
mod rewriting;
mod simpler;
mod vain;

pub use rewriting::{Gain, Rewriting, cost_of, gone_nodes, rewrite};
pub use vain::Vain;
