ghost use Rattle.std.specs.Prelude.{◌≡◌, ◌<◌, IfErr, IfOk};
ghost use Rattle.revc_io.specs.Reading.{CountsFault, ReadsAll, StopsAt};
ghost use Rattle.revc_io.specs.declared.reading.ReadFault.TheVariants as faults;

use crate::{Failed, Source};
use revc_base::{Memory, WantOfMemory};
use std::alloc::Global;

/// Why a whole text was not read: the source failed, the text is longer than the limit, or memory
/// was refused.
#[derive(Clone, Copy, Debug, PartialEq, Eq)]
pub enum ReadFault {
    Failed,
    TooLong,
    Memory(Memory),
}

impl From<Failed> for ReadFault {
    ghost from_gives = { λ _ e. e ≡ faults.Failed };

    fn from(_: Failed) -> ReadFault {
        ReadFault::Failed
    }
}

impl<M: WantOfMemory> From<M> for ReadFault {
    ghost from_gives = { λ _ e. e ≡ faults.Memory _ };

    fn from(want: M) -> ReadFault {
        ReadFault::Memory(want.memory())
    }
}

// How many bytes are read at a time, at most.
const CHUNK: usize = 4096;

/// Reads a source to its end and answers all its bytes, which are at most `limit`. It answers
/// `TooLong` exactly where `limit + 1` bytes were taken, and never takes more. Each call of the
/// source takes at least one byte, or is the last.
pub fn read_up_to<S: Source>(
    alloc: Global,
    source: &mut S,
    limit: usize,
) -> Result<Vec<u8>, ReadFault>
    requires { limit < usize.MAX }
    ensures all { IfOk result (λ all.
        ReadsAll (S.rest source.old) (S.rest source.new) limit all.items) }
    ensures stops { IfErr result (λ fault.
        StopsAt (S.rest source.old) (S.rest source.new) limit fault) }
    ensures counts { CountsFault (S.faults source.old) (S.faults source.new) result }
{
    let mut all = Vec::new(alloc);
    let mut chunk = [0; CHUNK];
    loop {
        let most = CHUNK.min(limit + 1 - all.len());
        let count = source.read(&mut chunk[..most])?;
        if count == 0 {
            return Ok(all);
        }
        if count > limit - all.len() {
            return Err(ReadFault::TooLong);
        }
        all.extend_from_slice(&chunk[..count])?;
    }
}
