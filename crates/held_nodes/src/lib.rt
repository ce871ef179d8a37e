//! Forward parts of plans: the nodes of a graph are computed onto work lines and cleaned
//! there again, the outputs are copied, and the forward part is undone (Bennett, Logical
//! reversibility of computation, 1973).
#![tactic(auto)]

mod clearing;
mod copying;
mod forward;
mod heap;
mod law;
mod weighed;

pub use forward::{Forward, Moved};
pub use law::toggles_are_narrow;
