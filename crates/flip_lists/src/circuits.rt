// Narrow gates as flips, and back.
ghost use Rattle.std.specs.Prelude.{◌≡◌, ◌≤◌, length, map, IfOk};
ghost use Rattle.mct_circuit.specs.Gates.{AreNarrow, HasDifferentLines, IsNarrow};
ghost use Rattle.flip_lists.specs.Flips.{AreFlipsOn, gate_of, gates_of, lines_in};

use crate::flip::{Controls, Flip};
use mct_circuit::{Circuit, Control, Gate, Op};
use revc_base::Memory;
use std::alloc::Global;

/// The flips that narrow gates are, in order.
pub fn flips_of(alloc: Global, gates: &[Gate]) -> Result<Vec<Flip>, Memory>
    requires { AreNarrow gates.now }
    ensures { IfOk result (λ flips. gates_of flips.items ≡ gates.now) }
{
    let mut flips = Vec::with_capacity(alloc, gates.len())?;
    for gate in gates {
        flips.push(flip_of(gate))?;
    }
    Ok(flips)
}

fn flip_of(gate: &Gate) -> Flip
    requires { IsNarrow gate.now }
    ensures { gate_of result ≡ gate.now }
{
    let controls = controls_of(gate.controls());
    match gate.op() {
        Op::Flip(target) => Flip { controls, target },
        Op::Swap(target, _) => Flip { controls, target },
    }
}

fn controls_of(controls: &[Control]) -> Controls
    requires { length controls.now ≤ 2 }
    ensures { lines_in result ≡ map (λ control. control.line) controls.now }
{
    match controls {
        [] => Controls::Zero,
        [one] => Controls::One(one.line),
        [first, second, ..] => Controls::Two(first.line, second.line),
    }
}

/// The circuit of flips, which are on its lines and within its limit of gates.
pub fn circuit_of(alloc: Global, lines: u32, limit: u64, flips: &[Flip]) -> Result<Circuit, Memory>
    requires lines { AreFlipsOn lines flips.now }
    requires room { length flips.now ≤ limit }
    ensures circuit { IfOk result (λ circuit. circuit
        ≡ record { lines = lines; limit = limit; gates = gates_of flips.now }) }
    ensures narrow { IfOk result (λ circuit. AreNarrow circuit.gates) }
{
    let mut gates = Vec::with_capacity(alloc, flips.len())?;
    for flip in flips {
        gates.push(gate_of(alloc, *flip)?)?;
    }
    Ok(Circuit::from_gates(lines, limit, gates))
}

fn gate_of(alloc: Global, flip: Flip) -> Result<Gate, Memory>
    requires { HasDifferentLines (gate_of flip) }
    ensures { IfOk result (λ gate. gate ≡ gate_of flip) }
{
    match flip.controls {
        Controls::Zero => Gate::flip(alloc, &[], flip.target),
        Controls::One(one) => Gate::flip(alloc, &[one], flip.target),
        Controls::Two(first, second) => Gate::flip(alloc, &[first, second], flip.target),
    }
}
