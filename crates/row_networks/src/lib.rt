//! Graphs of few inputs as networks of products, of which two at a time are made anew as one by
//! their values in all rows. Of none of it anything is promised.
#![tactic(auto)]

mod factors;
mod networks;
mod remaking;

pub use remaking::by_network;
