// Want of memory, as a value that only an allocator's refusal makes.

use std::alloc::{AllocError, AllocFailed};

/// Want of memory: an allocation was refused. It is the one answer that needs no other cause. It is
/// made of an allocator's error alone, so who answers with one was refused memory, or was told so.
#[derive(Clone, Copy, Debug, PartialEq, Eq)]
#[non_exhaustive]
pub struct Memory;

/// What says that memory is wanting, and no more. A fault that can be want of memory is made of
/// each of these.
pub trait WantOfMemory: Drop {
    /// The want of memory that it says.
    fn memory(self) -> Memory;
}

impl WantOfMemory for Memory {
    fn memory(self) -> Memory {
        self
    }
}

impl WantOfMemory for AllocError {
    fn memory(self) -> Memory {
        Memory
    }
}

impl<T: Drop> WantOfMemory for AllocFailed<T> {
    fn memory(self) -> Memory {
        AllocError::from(self).memory()
    }
}

impl From<AllocError> for Memory {
    fn from(refused: AllocError) -> Memory {
        refused.memory()
    }
}

impl<T: Drop> From<AllocFailed<T>> for Memory {
    fn from(refused: AllocFailed<T>) -> Memory {
        refused.memory()
    }
}
