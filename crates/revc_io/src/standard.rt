// The adapters over the readers and writers of the standard library.
ghost use Rattle.std.specs.Prelude.{◌≡◌, ◌≤◌};
ghost use Rattle.revc_io.specs.Faults.{raised};
ghost use Rattle.revc_io.specs.Held.{bytes_alone};

use crate::{Failed, Sink, Source};
use std::io::{Read, Write};

/// A source over any reader of the standard library. It raises its count of faults at each error of
/// the reader, and tells its bytes where the reader does: a reader in memory does, and a file, a
/// pipe or a terminal does not.
#[derive(Drop)]
pub struct StdSource<R> {
    inner: R,
    faults: u64,
}

impl<R: Read> StdSource<R> {
    /// A source over this reader, with no fault so far.
    pub fn new(inner: R) -> StdSource<R>
        ensures rest { ⟦<StdSource<R> as Source>⟧.rest result ≡ R.remaining inner }
        ensures faults { ⟦<StdSource<R> as Source>⟧.faults result ≡ 0 }
    {
        StdSource { inner, faults: 0 }
    }
}

impl<R: Read> Source for StdSource<R> {
    ghost rest = { λ s. R.remaining s.inner };

    ghost faults = { λ s. s.faults };

    fn read(&mut self, buf: &mut [u8]) -> Result<usize, Failed> {
        match self.inner.read(buf) {
            Ok(count) => Ok(count),
            Err(_) => Err(count_fault(&mut self.faults)),
        }
    }
}

/// A sink over any writer of the standard library. It raises its count of faults at each error of
/// the writer, and where the writer took nothing of a piece that is not empty. It tells its bytes
/// where the writer does, and nothing else: it promises to take no byte, and does not tell whether
/// it holds bytes back.
#[derive(Drop)]
pub struct StdSink<W> {
    inner: W,
    faults: u64,
}

impl<W: Write> StdSink<W> {
    /// A sink over this writer, with no fault so far.
    pub fn new(inner: W) -> StdSink<W>
        ensures held { (⟦<StdSink<W> as Sink>⟧.held result).bytes ≡ W.contents inner }
        ensures faults { ⟦<StdSink<W> as Sink>⟧.faults result ≡ 0 }
    {
        StdSink { inner, faults: 0 }
    }
}

impl<W: Write> Sink for StdSink<W> {
    ghost held = { λ s. bytes_alone (W.contents s.inner) };

    ghost faults = { λ s. s.faults };

    fn write(&mut self, piece: &[u8]) -> Result<usize, Failed> {
        match self.inner.write(piece) {
            Ok(0) | Err(_) => Err(count_fault(&mut self.faults)),
            Ok(count) => Ok(count),
        }
    }

    fn flush(&mut self) -> Result<(), Failed> {
        if self.inner.flush().is_err() {
            return Err(count_fault(&mut self.faults));
        }
        Ok(())
    }
}

// Counts a fault of a reader or a writer.
fn count_fault(faults: &mut u64) -> Failed
    ensures after { faults.new ≡ raised faults.old }
    ensures later { faults.old ≤ faults.new }
{
    *faults = faults.saturating_add(1);
    Failed
}
