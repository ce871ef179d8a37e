//! The scope rule: each used name is bound, or the first that is not is refused at its place.
#![tactic(auto)]

mod binding;
mod names;
mod numbers;
mod program;
mod terms;

pub use binding::{ScopeFault, nearest_binding, repeated_parameter, scope};
pub use program::Scoped;
