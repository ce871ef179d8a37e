// Why words are no order.

ghost use Rattle.std.specs.Prelude.{◌≡◌, ◌≢◌, ◌↔◌};
ghost use Rattle.revc_words.specs.declared.fault.WordsFault.TheVariants as faults;
ghost use Rattle.clap.specs.Words.{kind_of};
ghost use Rattle.clap.specs.declared.error.kind.ErrorKind.TheVariants as kinds;

use clap::error::ErrorKind;
use revc_base::{Memory, WantOfMemory};
use std::alloc::AllocError;

/// Why words are no order.
#[derive(Clone, Copy, Debug)]
pub enum WordsFault {
    /// They give none.
    Usage,
    /// Want of memory.
    Memory(Memory),
}

impl From<Memory> for WordsFault {
    ghost from_gives = { λ _ e. e ≡ faults.Memory _ };

    fn from(want: Memory) -> WordsFault {
        WordsFault::Memory(want)
    }
}

// The error of clap tells of a refused allocation by its kind alone, so the allocator's error is
// made anew here, and nowhere else.
impl From<clap::Error> for WordsFault {
    ghost from_gives = { λ error e. e ≡ faults.Usage ↔ kind_of error ≢ kinds.OutOfMemory };

    fn from(error: clap::Error) -> WordsFault {
        if error.kind() == ErrorKind::OutOfMemory {
            return WordsFault::Memory(AllocError.memory());
        }
        WordsFault::Usage
    }
}
