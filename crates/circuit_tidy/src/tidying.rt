// The whole work on a circuit.
ghost use Rattle.std.specs.Prelude.{◌≡◌, length, IfOk};
ghost use Rattle.flip_lists.specs.Flips.{AreFlipsOn};
ghost use Rattle.circuit_tidy.specs.Tidied.{IsTidied};
ghost use Rattle.circuit_tidy.specs.inside.Work.{IsDone};

use crate::blocks::first_longer;
use crate::sweep::swept;
use circuit_plans::Narrow;
use flip_lists::{Flip, circuit_of, flips_of, without_pairs};
use revc_base::Memory;
use std::alloc::Global;

/// A circuit with the line map of `narrow` for every content of the lines, at most as many gates,
/// no cancelling pair, and no block of CX gates that is longer than its elimination. Two flips
/// cancel where they have the same target and the same set of controls, and each flip between them
/// is free of them: the target of neither is a control of the other. A block is a run of CX gates
/// on at most 64 lines; its elimination is that of Gauss and Jordan on the rows of its lines
/// (Patel, Markov and Hayes, 2008, without sections). The pair with the first gate goes first, and
/// then the first block that gets shorter, and so on.
pub fn tidy(alloc: Global, narrow: &Narrow) -> Result<Narrow, Memory>
    ensures tidied { IfOk result (λ tidied.
        IsTidied narrow.now.lines narrow.now.gates tidied.gates) }
    ensures size { IfOk result (λ tidied. tidied ≡ record
        { lines = narrow.now.lines; limit = length narrow.now.gates; gates = tidied.gates }) }
{
    let circuit = narrow.circuit();
    let lines = circuit.lines();
    let limit = circuit.len();
    let flips = flips_of(alloc, circuit.gates())?;
    let flips = tidied(alloc, lines, flips)?;
    let circuit = circuit_of(alloc, lines, limit, &flips)?;
    Ok(Narrow::new(circuit))
}

// The flips without pairs that cancel and blocks that are longer than their eliminations.
fn tidied(alloc: Global, lines: u32, mut flips: Vec<Flip>) -> Result<Vec<Flip>, Memory>
    requires { AreFlipsOn lines flips.items }
    ensures { IfOk result (λ tidied. IsDone lines flips.items tidied.items) }
{
    'work: loop {
        let settled = without_pairs(alloc, lines, &flips)?;
        let found = first_longer(alloc, &settled)?;
        match found {
            None => return Ok(settled),
            Some(longer) => flips = swept(alloc, lines, settled, &longer)?,
        }
    }
}
