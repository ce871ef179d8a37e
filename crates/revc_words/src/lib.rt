//! The words of the command line.
#![tactic(auto)]

mod commands;
mod fault;
mod limits;
mod order;
mod parsing;
mod reading;
mod values;

pub use commands::{Command, Positional};
pub use fault::WordsFault;
pub use limits::{
    MOST_ASSUMED, MOST_DIGITS, MOST_NODES, USUAL_GATES, USUAL_LINES, USUAL_NODES, limits_are,
};
pub use order::{Aim, Format, Order, Values, Way, Write};
pub use reading::{one_order, orders_are_within_limits, read_words};
