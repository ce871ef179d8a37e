ghost use Rattle.std.specs.Prelude.{◌≡◌, ◌↔◌, ◌<◌, ◌≤◌, length, drop, Some, IfOk, IsErr};
ghost use Rattle.std.specs.Prelude.{MatchResult};
ghost use Rattle.std.specs.Io.{ReadsAtMost};
ghost use Rattle.std.specs.Io.KnownBytes.{ReadConsumes};
ghost use Rattle.revc_io.specs.Faults.{HasCause};
ghost use Rattle.revc_io.specs.Memory.{FailsNext, counted, failed, given_of, SourceView};

use crate::calls::Calls;
use crate::giving::give;
use crate::{Failed, Source};
use std::marker::Model;

/// A source over bytes in memory that gives them in pieces, and fails at chosen calls. Contracts
/// see the bytes that are still to come, the most bytes that a call gives, and its calls.
#[derive(Drop)]
pub struct MemorySource {
    bytes: Vec<u8>,
    at: usize,
    most: usize,
    calls: Calls,
}

impl Model for MemorySource {
    ghost Value = { SourceView };

    ghost view = { λ s. record {
      rest = drop s.at s.bytes.items;
      most = s.most;
      calls = s.calls;
    } };

    ghost invariant = { λ s. (s.at ≤ length s.bytes.items) × (1 ≤ s.most) };
}

impl MemorySource {
    /// A source of these bytes. Calls are counted from 1, and a call fails whose number is in
    /// `failing`. A call gives at most `most` bytes, which is at least 1.
    pub fn new(bytes: Vec<u8>, failing: Vec<u64>, most: usize) -> MemorySource
        requires { 1 ≤ most }
        ensures { result ≡ record {
          rest = bytes.items;
          most = most;
          calls = record {
            failing = failing.items;
            made = 0;
            faults = 0;
          };
        } }
    {
        MemorySource {
            bytes,
            at: 0,
            most,
            calls: Calls::new(failing),
        }
    }
}

impl Source for MemorySource {
    ghost rest = { λ s. Some s.rest };

    ghost faults = { λ s. s.calls.faults };

    fn read(&mut self, buf: &mut [u8]) -> Result<usize, Failed>
        requires { 0 < length buf.old }
        ensures bound { ReadsAtMost result buf.new }
        ensures bytes { ReadConsumes (Some self.old.rest) (Some self.new.rest) result buf.new }
        ensures cause { HasCause self.old.calls.faults self.new.calls.faults result }
        ensures fails { IsErr result ↔ FailsNext self.old.calls }
        ensures gives { IfOk result (λ count. count ≡ given_of self.old (length buf.old)) }
        ensures after { MatchResult result
            (λ count. self.new ≡ record self.old
            { rest = drop count self.old.rest; calls = counted self.old.calls })
            (λ _. self.new ≡ record self.old { calls = failed self.old.calls }) }
    {
        if self.calls.fails_now() {
            self.calls.fail();
            return Err(Failed);
        }
        let count = give(&self.bytes[self.at..], self.most, buf);
        self.at += count;
        Ok(count)
    }
}
