// Narrow gates.
ghost use Rattle.std.specs.Prelude.{◌≡◌, ◌↔◌, IsTrue};
ghost use Rattle.std.specs.List.{list_all};
ghost use Rattle.mct_circuit.specs.Gates.{AreNarrow, IsNarrow};

use mct_circuit::{Control, Gate, Op};

/// Whether the gate is a flip with at most two controls, all positive. It takes no memory.
pub fn is_narrow(gate: &Gate) -> bool
    ensures { IsTrue result ↔ IsNarrow gate.now }
{
    match gate.op() {
        Op::Flip(_) => gate.controls().len() <= 2 && are_positive(gate.controls()),
        Op::Swap(..) => false,
    }
}

/// Whether all gates are. It takes no memory.
pub fn are_narrow(gates: &[Gate]) -> bool
    ensures { IsTrue result ↔ AreNarrow gates.now }
{
    gates.iter().all(is_narrow)
}

fn are_positive(controls: &[Control]) -> bool
    ensures { result ≡ list_all (λ control. control.positive) controls.now }
{
    controls.iter().all(|control| control.positive)
}
