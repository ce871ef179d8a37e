// Whole pieces and whole texts, over any sink and any source.
ghost use Rattle.revc_io.specs.Faults.{HasCause};
ghost use Rattle.revc_io.specs.Passing.{Sends};

use crate::{Failed, Sink};

/// Writes the whole piece, in as many calls as the sink wants. Where a call fails, the sink took a
/// front of the piece. It takes no memory.
#[tactic(auto, using(crate::proofs::PassingLemmas::writing))]
pub fn put_all<K: Sink>(out: &mut K, piece: &[u8]) -> Result<(), Failed>
    ensures bytes { Sends result (K.held out.old) (K.held out.new) piece.now }
    ensures cause { HasCause (K.faults out.old) (K.faults out.new) result }
{
    let mut rest = piece;
    while !rest.is_empty() {
        let count = out.write(rest)?;
        rest = &rest[count..];
    }
    Ok(())
}
