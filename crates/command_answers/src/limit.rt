// Limits of the texts that commands read.
use crate::Fault;

/// The most bytes of the text that a command reads, and the fault of a longer one.
#[derive(Drop)]
pub struct TextLimit {
    pub bytes: usize,
    pub fault: Fault,
}
