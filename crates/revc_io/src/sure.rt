ghost use Rattle.std.specs.Prelude.{◌≡◌, Some, ℕ, ◌≤◌, List, drop, length};

use crate::giving::give;
use crate::{Failed, Source};
use std::marker::Model;

/// A source over bytes in memory, which never fails. Contracts see it as the list of the bytes that
/// are still to come.
#[derive(Drop)]
pub struct SureSource {
    bytes: Vec<u8>,
    at: usize,
}

impl Model for SureSource {
    ghost Value = { List ℕ };

    ghost view = { λ s. drop s.at s.bytes.items };

    ghost invariant = { λ s. s.at ≤ length s.bytes.items };
}

impl SureSource {
    /// A source of these bytes.
    pub fn new(bytes: Vec<u8>) -> SureSource
        ensures { result ≡ bytes.items }
    {
        SureSource { bytes, at: 0 }
    }
}

impl Source for SureSource {
    ghost rest = { λ s. Some s };

    ghost faults = { λ _. 0 };

    fn read(&mut self, buf: &mut [u8]) -> Result<usize, Failed> {
        let count = give(&self.bytes[self.at..], buf.len(), buf);
        self.at += count;
        Ok(count)
    }
}
