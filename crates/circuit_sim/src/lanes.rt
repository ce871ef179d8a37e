// Eight lanes of sixty-four contents of the lines at a time.
ghost use Rattle.std.specs.Prelude.{◌≡◌, ◌<◌, ◌∷◌, [], length};
ghost use Rattle.std.specs.List.{AllByRecursion};
ghost use Rattle.mct_circuit.specs.Gates.{lines_of};
ghost use Rattle.circuit_sim.specs.Planes.{AreMappedInLanes, AreVectors};
ghost use Rattle.circuit_sim.specs.inside.Masks.{IsChosenInLanes, IsMaskInLanes, IsNarrowedInLanes};

use mct_circuit::{Circuit, Control, Gate, Op};
use std::simd::u64x8;

/// Runs a circuit on 512 contents of its lines at once: there is a vector of eight planes for each
/// line, and each of the eight lanes goes through the circuit as by `run_planes`. It takes no
/// memory.
#[tactic(auto, using(crate::proofs::LaneLemmas::walking_in_lanes))]
pub fn run_lanes(circuit: &Circuit, planes: &mut [u64x8])
    requires lines { length planes.old ≡ circuit.now.lines }
    requires vectors { AreVectors planes.old }
    ensures { AreMappedInLanes circuit.now.gates planes.old planes.new }
{
    for gate in circuit.gates() {
        run_gate(gate, planes);
    }
}

// Runs a circuit on two such groups of contents at once: each gate is read once for both.
#[tactic(auto, using(crate::proofs::LaneLemmas::walking_in_lanes))]
pub fn run_pair(circuit: &Circuit, first: &mut [u64x8], second: &mut [u64x8])
    requires lines { (length first.old ≡ circuit.now.lines)
        × (length second.old ≡ circuit.now.lines) }
    requires vectors { AreVectors first.old × AreVectors second.old }
    ensures first { AreMappedInLanes circuit.now.gates first.old first.new }
    ensures second { AreMappedInLanes circuit.now.gates second.old second.new }
{
    for gate in circuit.gates() {
        run_gate(gate, first);
        run_gate(gate, second);
    }
}

fn run_gate(gate: &Gate, planes: &mut [u64x8])
    requires lines { AllByRecursion (λ line. line < length planes.old) (lines_of gate.now) }
    requires vectors { AreVectors planes.old }
    ensures { AreMappedInLanes (gate.now ∷ []) planes.old planes.new }
{
    let met = mask(gate.controls(), planes);
    match gate.op() {
        Op::Flip(target) => planes[target as usize] ^= met,
        Op::Swap(first, second) => {
            let (there, back) = exchanged(planes[first as usize], planes[second as usize], met);
            planes[first as usize] = there;
            planes[second as usize] = back;
        }
    }
}

// The places whose content meets all controls.
fn mask(controls: &[Control], planes: &[u64x8]) -> u64x8
    requires lines { AllByRecursion (λ control. control.line < length planes.now) controls.now }
    requires vectors { AreVectors planes.now }
    ensures { IsMaskInLanes planes.now controls.now result }
{
    let mut mask = u64x8::splat(u64::MAX);
    for control in controls {
        mask = narrow(mask, planes[control.line as usize], control.positive);
    }
    mask
}

fn narrow(mask: u64x8, plane: u64x8, positive: bool) -> u64x8
    requires { (length mask ≡ 8) × (length plane ≡ 8) }
    ensures { IsNarrowedInLanes mask plane positive result }
{
    if positive {
        mask & plane
    } else {
        mask & (mask ^ plane)
    }
}

// Two planes, exchanged at the places of a mask.
fn exchanged(first: u64x8, second: u64x8, mask: u64x8) -> (u64x8, u64x8)
    requires { (length first ≡ 8) × (length second ≡ 8) × (length mask ≡ 8) }
    ensures first { IsChosenInLanes mask second first result.0 }
    ensures second { IsChosenInLanes mask first second result.1 }
{
    let changed = (first ^ second) & mask;
    (first ^ changed, second ^ changed)
}
