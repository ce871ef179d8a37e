//! Claims settled on all inputs, and the graph that is left to plan.
#![tactic(auto)]

mod assignments;
mod chains;
mod claims;
mod fault;
mod keeping;
mod labels;
mod law;
mod numbers;
mod schedule;
mod settled;

pub use assignments::{bits_of, variables};
pub use claims::settle_claims;
pub use fault::ClaimFault;
pub use law::{
    budgets_are_no_greater, claims_end_in_one_way, limits_are, settled_graphs_are_within,
    settled_graphs_have_measures, tapes_have_measures,
};
pub use settled::Settled;
