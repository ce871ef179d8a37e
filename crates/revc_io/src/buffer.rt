ghost use Rattle.std.specs.Prelude.{◌≡◌, ◌+◌, ◌<◌, ◌≤◌, ◌++◌, [], length, ℕ, List, take};
ghost use Rattle.revc_io.specs.Faults.{HasCause};
ghost use Rattle.revc_io.specs.Passing.{Gathers, Sends, Writes};

use crate::{Failed, Sink, put_all};
use std::marker::Model;

// How many bytes a buffer holds.
const SIZE: usize = 4096;

/// Bytes that wait to be written, so that small pieces reach a sink together. It stands apart from
/// the sink, which is passed beside it. Contracts see it as the list of the bytes that wait. After
/// a fault of the sink nothing waits.
#[derive(Drop)]
pub struct Buffer {
    bytes: [u8; SIZE],
    len: usize,
}

impl Model for Buffer {
    ghost Value = { List ℕ };

    ghost view = { λ b. take b.len b.bytes };

    ghost invariant = { λ b. b.len ≤ length b.bytes };
}

impl Buffer {
    /// An empty buffer. It lies where it is bound, and takes no memory.
    pub fn new() -> Buffer
        ensures { result ≡ [] }
    {
        Buffer {
            bytes: [0; SIZE],
            len: 0,
        }
    }

    // How many bytes more it can gather.
    fn room(&self) -> usize
        ensures { result + length self.now ≡ SIZE }
    {
        SIZE - self.len
    }

    // Gathers a piece for which there is room.
    fn gather(&mut self, piece: &[u8])
        requires { length self.old + length piece.now ≤ SIZE }
        ensures { self.new ≡ self.old ++ piece.now }
    {
        let end = self.len + piece.len();
        self.bytes[self.len..end].copy_from_slice(piece);
        self.len = end;
    }

    // Hands on all that waits.
    fn hand_on<K: Sink>(&mut self, out: &mut K) -> Result<(), Failed>
        ensures bytes { Sends result (K.held out.old) (K.held out.new) self.old }
        ensures empty { self.new ≡ [] }
        ensures cause { HasCause (K.faults out.old) (K.faults out.new) result }
    {
        let waiting = self.len;
        self.len = 0;
        put_all(out, &self.bytes[..waiting])
    }

    /// Gathers the piece behind what waits, and hands whole buffers on to the sink; what is longer
    /// than a buffer goes past it, after what waits. Where the sink fails, it took a front of what
    /// waited and the piece, and nothing waits. It takes no memory.
    pub fn put<K: Sink>(&mut self, out: &mut K, piece: &[u8]) -> Result<(), Failed>
        ensures bytes { Gathers result (K.held out.old)
            (K.held out.new) self.old self.new piece.now }
        ensures cause { HasCause (K.faults out.old) (K.faults out.new) result }
    {
        if piece.len() <= self.room() {
            self.gather(piece);
            return Ok(());
        }
        let (first, rest) = piece.split_at(self.room());
        self.gather(first);
        self.hand_on(out)?;
        if rest.len() < SIZE {
            self.gather(rest);
            return Ok(());
        }
        put_all(out, rest)
    }

    /// Hands on all that waits, and then flushes the sink once. Where the sink fails, it took a
    /// front of what waited. Nothing waits afterwards. It takes no memory.
    pub fn finish<K: Sink>(&mut self, out: &mut K) -> Result<(), Failed>
        ensures bytes { Writes result (K.held out.old) (K.held out.new) self.old }
        ensures empty { self.new ≡ [] }
        ensures cause { HasCause (K.faults out.old) (K.faults out.new) result }
    {
        self.hand_on(out)?;
        out.flush()
    }
}
