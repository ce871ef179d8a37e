ghost use Rattle.std.specs.Prelude.{◌≡◌};
ghost use Rattle.std.specs.Fmt.{decimal};
ghost use Rattle.revc_io.specs.Faults.{HasCause};
ghost use Rattle.revc_io.specs.Passing.{Gathers};

use crate::{Buffer, Failed, Sink};

/// Puts the decimal digits of `n`, without leading zeros, through the buffer. It takes no memory.
pub fn put_decimal<K: Sink>(buffer: &mut Buffer, out: &mut K, n: u64) -> Result<(), Failed>
    ensures bytes { Gathers result (K.held out.old) (K.held out.new) buffer.old buffer.new
        (decimal n) }
    ensures cause { HasCause (K.faults out.old) (K.faults out.new) result }
{
    // The digits fill the array from its end; the greatest number has 20.
    let mut digits = [0; 20];
    let mut at = 19;
    let mut left = n;
    while left >= 10 {
        digits[at] = b'0' + (left % 10) as u8;
        at -= 1;
        left /= 10;
    }
    digits[at] = b'0' + left as u8;
    buffer.put(out, &digits[at..])
}
