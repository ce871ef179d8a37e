// The gates of a circuit that is to be verified.
ghost use Rattle.std.specs.Prelude.{◌≡◌, MatchOption};
ghost use Rattle.mct_circuit.specs.declared.gate.Op.TheVariants.{Flip};
ghost use Rattle.mct_circuit.specs.Gates.{AreNarrow, IsNarrow};
ghost use Rattle.circuit_verify.specs.Verdicts.{IsFirstWide};

use gate_split::is_narrow;
use mct_circuit::{Gate, Op};

// The first gate, counted from 0, that is no flip with at most two controls, all positive.
#[tactic(auto, using(list_facts::proofs::FirstLemmas::first_without))]
pub(crate) fn first_wide(gates: &[Gate]) -> Option<u64>
    ensures { MatchOption result (AreNarrow gates.now) (IsFirstWide gates.now) }
{
    for (at, gate) in gates.iter().enumerate() {
        if !is_narrow(gate) {
            return Some(at as u64);
        }
    }
    None
}

/// The line that a narrow gate flips.
pub fn target_of(gate: &Gate) -> u32
    requires { IsNarrow gate.now }
    ensures { gate.now.op ≡ Flip result }
{
    match gate.op() {
        Op::Flip(target) => target,
        Op::Swap(first, _) => first, // no narrow gate swaps
    }
}
