ghost use Rattle.std.specs.Prelude.{ℕ, ◌<◌, List, length, Option};
ghost use Rattle.std.specs.Io.{ReadsAtMost};
ghost use Rattle.std.specs.Io.KnownBytes.{ReadConsumes};
ghost use Rattle.revc_io.specs.Faults.{HasCause};

use crate::Failed;

/// Bytes that come from outside.
pub trait Source {
    // The bytes that are still to come, where the source tells them.
    ghost rest: { Self → Option (List ℕ) };

    // How many times it failed, from 0 to 2^64 - 1, where the count stays.
    ghost faults: { Self → ℕ };

    /// Reads some of the bytes that are still to come into the front of `buf`, which is not empty,
    /// and answers how many. It answers 0 only where no byte is left. Where it fails, no byte is
    /// lost and the count of faults rose; else the count stays.
    fn read(&mut self, buf: &mut [u8]) -> Result<usize, Failed>
        requires { 0 < length buf.old }
        ensures bound { ReadsAtMost result buf.new }
        ensures bytes { ReadConsumes (rest self.old) (rest self.new) result buf.new }
        ensures cause { HasCause (faults self.old) (faults self.new) result };
}
