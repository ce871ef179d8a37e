//! What the formats of circuits share: how the gates of a narrow circuit are written, and the set
//! of names that a text lends.
#![tactic(auto)]

mod flips;
mod names;

pub use flips::{FlipWriter, write_circuit};
pub use names::Names;
