// Sixty-four contents of the lines at a time.
ghost use Rattle.std.specs.Prelude.{◌≡◌, ◌<◌, ◌∷◌, [], length};
ghost use Rattle.std.specs.List.{AllByRecursion};
ghost use Rattle.mct_circuit.specs.Gates.{lines_of};
ghost use Rattle.circuit_sim.specs.Planes.{AreMapped};
ghost use Rattle.circuit_sim.specs.inside.Masks.{IsChosen, IsMask, IsNarrowed};

use mct_circuit::{Circuit, Control, Gate, Op};

/// Runs a circuit on 64 contents of its lines at once: there is a plane for each line, and the bits
/// of all planes at one place are one content. Each content becomes its line map. It takes no
/// memory.
#[tactic(auto, using(crate::proofs::GateLemmas::walking))]
pub fn run_planes(circuit: &Circuit, planes: &mut [u64])
    requires { length planes.old ≡ circuit.now.lines }
    ensures { AreMapped circuit.now.gates planes.old planes.new }
{
    for gate in circuit.gates() {
        run_gate(gate, planes);
    }
}

fn run_gate(gate: &Gate, planes: &mut [u64])
    requires { AllByRecursion (λ line. line < length planes.old) (lines_of gate.now) }
    ensures { AreMapped (gate.now ∷ []) planes.old planes.new }
{
    let met = mask(gate.controls(), planes);
    match gate.op() {
        Op::Flip(target) => planes[target as usize] ^= met,
        Op::Swap(first, second) => {
            let (there, back) = exchanged(planes[first as usize], planes[second as usize], met);
            planes[first as usize] = there;
            planes[second as usize] = back;
        }
    }
}

// The places whose content meets all controls.
fn mask(controls: &[Control], planes: &[u64]) -> u64
    requires { AllByRecursion (λ control. control.line < length planes.now) controls.now }
    ensures { IsMask planes.now controls.now result }
{
    let mut mask = u64::MAX;
    for control in controls {
        mask = narrow(mask, planes[control.line as usize], control.positive);
    }
    mask
}

fn narrow(mask: u64, plane: u64, positive: bool) -> u64
    ensures { IsNarrowed mask plane positive result }
{
    if positive {
        mask & plane
    } else {
        mask & (mask ^ plane)
    }
}

// Two planes, exchanged at the places of a mask.
fn exchanged(first: u64, second: u64, mask: u64) -> (u64, u64)
    ensures first { IsChosen mask second first result.0 }
    ensures second { IsChosen mask first second result.1 }
{
    let changed = (first ^ second) & mask;
    (first ^ changed, second ^ changed)
}
