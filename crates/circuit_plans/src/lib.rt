//! What plans are made of: budgets, which plans are tried, plans before their gates are split and
//! behind it, the roles of lines, and what a clean circuit is.
#![tactic(auto)]

mod choice;
mod law;
mod narrow;
mod plan;
mod roles;
mod size;

pub use choice::Plan;
pub use law::{added_outputs_are_put, clean_circuits_borrow};
pub use narrow::Narrow;
pub use plan::{
    Budget, Laid, MOST_BORROWED, MOST_GATES, MOST_LINES, PlanFault, Planned, limits_are,
};
pub use roles::{Placing, Role, Roles, Start};
pub use size::Size;
