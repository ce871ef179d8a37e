//! Where bytes come from and where they go: sources and sinks that tell their bytes where they can,
//! and count their faults. Above them stand the writing of a whole piece, a buffer that gathers
//! pieces, and the reading of a whole text.
#![tactic(auto)]

mod buffer;
mod calls;
mod decimal;
mod failed;
mod giving;
mod memory_sink;
mod memory_source;
mod piece;
mod reading;
mod sink;
mod source;
mod standard;
mod sure;
mod transfer;

pub use buffer::Buffer;
pub use decimal::put_decimal;
pub use failed::Failed;
pub use memory_sink::MemorySink;
pub use memory_source::MemorySource;
pub use piece::{Byte, Decimal, Each, Literal, Piece, Pieces, write_whole};
pub use reading::{ReadFault, read_up_to};
pub use sink::Sink;
pub use source::Source;
pub use standard::{StdSink, StdSource};
pub use sure::SureSource;
pub use transfer::put_all;
