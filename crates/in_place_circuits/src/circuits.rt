// From the gates of a search to a circuit.
ghost use Rattle.std.specs.Prelude.{◌≡◌, ◌≤◌, length, IfOk, IfSome};
ghost use Rattle.mct_circuit.specs.Gates.{AreNarrow};

use circuit_plans::Narrow;
use circuit_tidy::tidy;
use in_place_plans::Flip;
use mct_circuit::{Circuit, GateFault};
use plan_tools::NOWHERE;
use revc_base::Memory;
use std::alloc::Global;

/// The most gates that are tidied.
const MOST_TIDIED: usize = 65_536;

/// The circuit of these gates on so many lines, tidied; none where a gate is on another line, or
/// twice on one, or there are more gates than the limit.
pub fn circuit_of(
    alloc: Global,
    lines: u32,
    limit: u64,
    flips: &[Flip],
) -> Result<Option<Narrow>, Memory>
    ensures { IfOk result (λ found. IfSome found (λ narrow.
        (narrow.lines ≡ lines) × (length narrow.gates ≤ limit))) }
{
    let Some(narrow) = narrow_of(Circuit::new(alloc, lines, limit), flips)? else {
        return Ok(None);
    };
    if flips.len() > MOST_TIDIED {
        return Ok(Some(narrow));
    }
    let tidied = tidy(alloc, &narrow)?;
    Ok(Some(tidied))
}

// The gates on an empty circuit.
fn narrow_of(circuit: Circuit, flips: &[Flip]) -> Result<Option<Narrow>, Memory>
    requires { AreNarrow circuit.gates }
    ensures { IfOk result (λ found. IfSome found (λ narrow.
        (narrow.lines ≡ circuit.lines) × (length narrow.gates ≤ circuit.limit))) }
{
    let mut circuit = circuit;
    for flip in flips {
        match push(&mut circuit, *flip) {
            Ok(true) => {}
            Ok(false) => return Ok(None),
            Err(GateFault::Full) => return Ok(None),
            Err(GateFault::Memory(memory)) => return Err(memory),
        }
    }
    // This call says that there are no more gates than the limit.
    let _ = circuit.len();
    Ok(Some(Narrow::new(circuit)))
}

// Appends a gate, where its lines are different and on the circuit.
fn push(circuit: &mut Circuit, flip: Flip) -> Result<bool, GateFault>
    requires { AreNarrow circuit.old.gates }
    ensures narrow { AreNarrow circuit.new.gates }
    ensures lines { circuit.new.lines ≡ circuit.old.lines }
    ensures limit { circuit.new.limit ≡ circuit.old.limit }
{
    let lines = circuit.lines();
    let Flip {
        first,
        second,
        target,
    } = flip;
    if target >= lines {
        return Ok(false);
    }
    if first == NOWHERE {
        circuit.push_flip(&[], target)?;
    } else if second == NOWHERE {
        if first >= lines || first == target {
            return Ok(false);
        }
        circuit.push_flip(&[first], target)?;
    } else {
        if first >= lines || second >= lines || first == target || second == target {
            return Ok(false);
        }
        if first == second {
            return Ok(false);
        }
        circuit.push_flip(&[first, second], target)?;
    }
    Ok(true)
}
