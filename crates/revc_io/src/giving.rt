// What a source over bytes in memory gives.
ghost use Rattle.std.specs.Prelude.{◌≡◌, ◌++◌, min, take, drop, length};

/// Copies a front of what is left, `most` bytes or fewer, to the front of the buffer, and answers
/// how many bytes that is.
pub(crate) fn give(left: &[u8], most: usize, buf: &mut [u8]) -> usize
    ensures count { result ≡ min (min most (length left.now)) (length buf.old) }
    ensures bytes { left.now ≡ take result buf.new ++ drop result left.now }
    ensures len { length buf.new ≡ length buf.old }
{
    let count = most.min(left.len()).min(buf.len());
    buf[..count].copy_from_slice(&left[..count]);
    count
}
