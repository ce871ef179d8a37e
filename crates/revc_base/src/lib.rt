//! What every crate of the compiler shares: want of memory, short texts, places in a source text,
//! bit words, keys of tables, and the limits of programs.
#![tactic(auto)]

mod bits;
mod key;
pub mod limits;
mod memory;
mod place;
mod text;

pub use bits::{Bits, BitsFault};
pub use key::Key;
pub use memory::{Memory, WantOfMemory};
pub use place::Place;
pub use text::Text;
