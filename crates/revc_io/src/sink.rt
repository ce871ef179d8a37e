ghost use Rattle.std.specs.Prelude.{ℕ, ◌<◌, ◌≤◌, length, IfOk};
ghost use Rattle.std.specs.Io.{WritesAtMost};
ghost use Rattle.revc_io.specs.Faults.{HasCause};
ghost use Rattle.revc_io.specs.Held.{Flushes, Held, WritesSome};

use crate::Failed;

/// Where bytes go.
pub trait Sink {
    // The bytes that it took, where the sink tells them; how many more it promises to take; and
    // whether it holds none of them back, where it tells that.
    ghost held: { Self → Held };

    // How many times it failed, from 0 to 2^64 - 1, where the count stays.
    ghost faults: { Self → ℕ };

    /// Takes a front of `piece`, which is not empty, and answers how many bytes that is, at least
    /// 1. Where it fails, it took none and the count of faults rose; else the count stays. It fails
    /// only where it had promised no room for the whole piece.
    fn write(&mut self, piece: &[u8]) -> Result<usize, Failed>
        requires { 0 < length piece.now }
        ensures bound { WritesAtMost result piece.now }
        ensures some { IfOk result (λ count. 1 ≤ count) }
        ensures bytes { WritesSome result (held self.old) (held self.new) piece.now }
        ensures cause { HasCause (faults self.old) (faults self.new) result };

    /// Hands on what the sink itself may hold back. It takes no bytes. Where it fails, the count of
    /// faults rose; else the count stays, and nothing is held back. It fails only where the sink
    /// had promised nothing.
    fn flush(&mut self) -> Result<(), Failed>
        ensures bytes { Flushes result (held self.old) (held self.new) }
        ensures cause { HasCause (faults self.old) (faults self.new) result };
}
