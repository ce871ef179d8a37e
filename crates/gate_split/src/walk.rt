// The gates in place of those of a circuit.
ghost use Rattle.std.specs.Prelude.{◌≡◌, ◌≢◌, ◌≤◌, length, Some, None, IfOk};
ghost use Rattle.mct_circuit.specs.Gates.{AreGatesOn, AreNarrow};
ghost use Rattle.gate_split.specs.Split.{Splits, split_gates};

use crate::counting::decide;
use crate::fault::SplitFault;
use crate::idle::LineMarks;
use crate::narrow::are_narrow;
use crate::piece::push_piece;
use circuit_plans::Narrow;
use mct_circuit::{Circuit, Gate, GateFault};
use revc_base::Memory;
use std::alloc::Global;

/// The circuit of narrow gates on `lines` lines that does what `circuit` does, whatever the lines
/// hold that `circuit` does not use. Each gate becomes the list of Barenco and others (1995): a
/// swap is three flips, a negative control is a positive one between two flips of its line, and a
/// flip of three or more controls takes as many idle lines as it can use, the greatest first.
/// `NoIdle` names the first gate that uses every line and wants an idle one, `Gates` says that
/// there are more than `limit` gates, whichever comes first. `Memory` comes only where there is a
/// split list.
pub fn split(alloc: Global, circuit: &Circuit, lines: u32, limit: u64) -> Result<Narrow, SplitFault>
    requires { circuit.now.lines ≤ lines }
    ensures { Splits lines limit circuit.now.gates result }
{
    decide(circuit, lines, limit)?;
    let mut gates = split_gates(alloc, circuit.gates(), lines)?;
    let mut narrow = Circuit::new(alloc, lines, limit);
    match narrow.append(&mut gates) {
        Ok(()) => Ok(Narrow::new(narrow)),
        Err(GateFault::Full) => unreachable!(),
        Err(GateFault::Memory(memory)) => Err(SplitFault::Memory(memory)),
    }
}

/// The circuit that [`split`] gives, of a circuit that is given up: where all its gates are narrow
/// and within the limit, they are kept as they are, and none is copied.
pub fn split_owned(
    alloc: Global,
    circuit: Circuit,
    lines: u32,
    limit: u64,
) -> Result<Narrow, SplitFault>
    requires { circuit.lines ≤ lines }
    ensures { Splits lines limit circuit.gates result }
{
    if circuit.len() <= limit && are_narrow(circuit.gates()) {
        return Ok(widened(alloc, circuit, lines, limit)?);
    }
    split(alloc, &circuit, lines, limit)
}

// A circuit of narrow gates, with these limits.
fn widened(alloc: Global, circuit: Circuit, lines: u32, limit: u64) -> Result<Narrow, Memory>
    requires lines { circuit.lines ≤ lines }
    requires few { length circuit.gates ≤ limit }
    requires narrow { AreNarrow circuit.gates }
    ensures { IfOk result (λ narrow. narrow
        ≡ record { lines = lines; limit = limit; gates = circuit.gates }) }
{
    let mut gates = circuit.into_gates();
    let mut narrow = Circuit::new(alloc, lines, limit);
    match narrow.append(&mut gates) {
        Ok(()) => Ok(Narrow::new(narrow)),
        Err(GateFault::Full) => unreachable!(),
        Err(GateFault::Memory(memory)) => Err(memory),
    }
}

// The gates in place of each of these, one list behind the other.
fn split_gates(alloc: Global, gates: &[Gate], lines: u32) -> Result<Vec<Gate>, Memory>
    requires placed { AreGatesOn lines gates.now }
    requires some { split_gates lines gates.now ≢ None }
    ensures { IfOk result (λ split. split_gates lines gates.now ≡ Some split.items) }
{
    let mut marks = LineMarks::new(alloc, lines)?;
    let mut split = Vec::new(alloc);
    for gate in gates {
        push_piece(&mut split, gate, &mut marks)?;
    }
    Ok(split)
}
