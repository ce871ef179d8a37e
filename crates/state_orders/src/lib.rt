//! The nodes of a graph of sums in the orders in which a sweep with a state may go over them, and
//! where segments begin in these.
#![tactic(auto)]

mod arrangement;
mod items;
mod order;
mod ranks;

pub use arrangement::Arrangement;
pub use items::{Item, Items};
pub use order::{Order, push_at};
pub use ranks::{Ranks, Side};
