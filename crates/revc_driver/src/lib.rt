//! All that the program does: the top call, from the words of a command line and the bytes of a
//! source to what is written.
#![tactic(auto)]

mod commands;
mod top;

pub use top::revc;
