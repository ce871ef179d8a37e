//! OpenQASM 2.0 files: what a text means, its reader, and its writer.
#![tactic(auto)]

mod file;
mod law;
mod names;
mod naming;
mod reader;
mod said;
mod spots;
mod words;
mod writer;

pub use file::{QasmFault, QasmFile, Register};
pub use law::{
    compiled_meaning, converted_meaning, files_are_statements, meanings_are_files, one_reading,
};
pub use reader::read;
pub use writer::{write, write_lines};
