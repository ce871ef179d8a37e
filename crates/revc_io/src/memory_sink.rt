ghost use Rattle.std.specs.Prelude.{◌≡◌, ◌↔◌, ◌⊎◌, ◌<◌, ◌≤◌, ◌++◌, [], length, take, true, false};
ghost use Rattle.std.specs.Prelude.{IfOk, IsErr, MatchResult, vec_len, vec_capacity};
ghost use Rattle.std.specs.Io.{WritesAtMost};
ghost use Rattle.revc_io.specs.Faults.{HasCause};
ghost use Rattle.revc_io.specs.Held.{Flushes, WritesSome};
ghost use Rattle.revc_io.specs.Memory.{FailsNext, IsFull, counted, failed, held_by, taken_of};
ghost use Rattle.revc_io.specs.Memory.{SinkView};

use crate::calls::Calls;
use crate::{Failed, Sink};
use revc_base::Memory;
use std::alloc::Global;
use std::marker::Model;

/// A sink in memory with a fixed room. It fails at chosen calls, and where its room is full.
/// Contracts see its room, the most bytes that a call takes, the bytes that it took, whether it was
/// flushed since it took the last of them, and its calls of `write` and `flush`, which are counted
/// together.
#[derive(Drop)]
pub struct MemorySink {
    bytes: Vec<u8>,
    room: usize,
    most: usize,
    is_flushed: bool,
    calls: Calls,
}

impl Model for MemorySink {
    ghost Value = { SinkView };

    ghost view = { λ s. record {
      room = s.room;
      most = s.most;
      held = s.bytes.items;
      flushed = s.is_flushed;
      calls = s.calls;
    } };

    ghost invariant = { λ s.
        (vec_len s.bytes ≤ s.room) × (s.room ≤ vec_capacity s.bytes) × (1 ≤ s.most) };
}

impl MemorySink {
    /// An empty sink with this room in bytes. `write` and `flush` calls are counted together from
    /// 1, and a call fails whose number is in `failing`. A call takes at most `most` bytes, which
    /// is at least 1. The room is taken here, so that writes take no memory.
    pub fn new(
        alloc: Global,
        room: usize,
        failing: Vec<u64>,
        most: usize,
    ) -> Result<MemorySink, Memory>
        requires { 1 ≤ most }
        ensures { IfOk result (λ sink. sink ≡ record {
          room = room;
          most = most;
          held = [];
          flushed = true;
          calls = record {
            failing = failing.items;
            made = 0;
            faults = 0;
          };
        }) }
    {
        Ok(MemorySink {
            bytes: Vec::with_capacity(alloc, room)?,
            room,
            most,
            is_flushed: true,
            calls: Calls::new(failing),
        })
    }

    /// The bytes that it took.
    pub fn bytes(&self) -> &[u8]
        ensures { result.now ≡ self.now.held }
    {
        &self.bytes
    }
}

impl Sink for MemorySink {
    ghost held = { held_by };

    ghost faults = { λ s. s.calls.faults };

    fn write(&mut self, piece: &[u8]) -> Result<usize, Failed>
        requires { 0 < length piece.now }
        ensures bound { WritesAtMost result piece.now }
        ensures some { IfOk result (λ count. 1 ≤ count) }
        ensures bytes { WritesSome result (held_by self.old) (held_by self.new) piece.now }
        ensures cause { HasCause self.old.calls.faults self.new.calls.faults result }
        ensures fails { IsErr result ↔ (FailsNext self.old.calls ⊎ IsFull self.old) }
        ensures takes { IfOk result (λ count. count ≡ taken_of self.old (length piece.now)) }
        ensures after { MatchResult result
            (λ count. self.new ≡ record self.old {
              held = self.old.held ++ take count piece.now;
              flushed = false;
              calls = counted self.old.calls;
            })
            (λ _. self.new ≡ record self.old { calls = failed self.old.calls }) }
    {
        let fails = self.calls.fails_now();
        let room = self.room - self.bytes.len();
        if fails || room == 0 {
            self.calls.fail();
            return Err(Failed);
        }
        let count = self.most.min(piece.len()).min(room);
        self.is_flushed = false;
        match self.bytes.extend_from_slice(&piece[..count]) {
            Ok(()) => Ok(count),
            Err(_) => unreachable!(),
        }
    }

    fn flush(&mut self) -> Result<(), Failed>
        ensures bytes { Flushes result (held_by self.old) (held_by self.new) }
        ensures cause { HasCause self.old.calls.faults self.new.calls.faults result }
        ensures fails { IsErr result ↔ FailsNext self.old.calls }
        ensures after { MatchResult result
            (λ _. self.new ≡ record self.old { flushed = true; calls = counted self.old.calls })
            (λ _. self.new ≡ record self.old { calls = failed self.old.calls }) }
    {
        if self.calls.fails_now() {
            self.calls.fail();
            return Err(Failed);
        }
        self.is_flushed = true;
        Ok(())
    }
}
