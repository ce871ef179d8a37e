//! The RevLib `.real` format: what a text means, its reader, and its writer.
#![tactic(auto)]

mod file;
mod gate;
mod header;
mod labels;
mod law;
mod reader;
mod refusal;
mod words;
mod writer;

pub use file::{Mark, RealFault, RealFile};
pub use header::Head;
pub use law::{
    compiled_meaning, converted_meaning, fronts_go_on, meanings_are_files, one_meaning, one_reading,
};
pub use reader::read;
pub use writer::{write, write_lines};
