// The greatest depth of a gate on each line, as a circuit grows.
ghost use Rattle.std.specs.Prelude.{◌≡◌, ℕ, ◌<◌, ◌≤◌, length, slice_index, if◌then◌else◌, map};
ghost use Rattle.std.specs.List.{AllByRecursion};
ghost use Rattle.mct_circuit.specs.Gates.{lines_of};
ghost use Rattle.mct_circuit.specs.Sizes.{has_line, greatest_at};
ghost use Rattle.mct_circuit.specs.inside.Counting.{weight_for};

use crate::{Control, Gate, Op};

// Which gates count in a depth, each as one.
#[derive(Clone, Copy)]
pub enum Counting {
    EachGate,
    Toffolis,
}

// What a gate adds to the depth.
pub fn weight_for(counting: Counting, gate: &Gate) -> u64
    ensures weight { result ≡ weight_for counting gate.now }
    ensures one { result ≤ 1 }
{
    match counting {
        Counting::EachGate => 1,
        Counting::Toffolis => u64::from(gate.is_flip_under(2)),
    }
}

// The greatest number at a line of the gate.
pub fn greatest_on(gate: &Gate, depths: &[u64]) -> u64
    requires { AllByRecursion (λ line. line < length depths.now) (lines_of gate.now) }
    ensures { result ≡ greatest_at depths.now (lines_of gate.now) }
{
    let of_controls = greatest_on_controls(gate.controls(), depths);
    match gate.op() {
        Op::Flip(target) => of_controls.max(depths[target as usize]),
        Op::Swap(first, second) => of_controls
            .max(depths[first as usize])
            .max(depths[second as usize]),
    }
}

fn greatest_on_controls(controls: &[Control], depths: &[u64]) -> u64
    requires { AllByRecursion (λ control. control.line < length depths.now) controls.now }
    ensures { result ≡ greatest_at depths.now (map (λ control. control.line) controls.now) }
{
    let mut greatest = 0;
    for control in controls {
        greatest = depths[control.line as usize].max(greatest);
    }
    greatest
}

// Sets the numbers at all lines of the gate.
pub fn set_all(gate: &Gate, depths: &mut [u64], depth: u64)
    requires { AllByRecursion (λ line. line < length depths.old) (lines_of gate.now) }
    ensures { (line : ℕ) → slice_index depths.new line
        ≡ (if has_line line (lines_of gate.now) then depth else slice_index depths.old line) }
{
    set_controls(gate.controls(), depths, depth);
    match gate.op() {
        Op::Flip(target) => depths[target as usize] = depth,
        Op::Swap(first, second) => {
            depths[first as usize] = depth;
            depths[second as usize] = depth;
        }
    }
}

fn set_controls(controls: &[Control], depths: &mut [u64], depth: u64)
    requires { AllByRecursion (λ control. control.line < length depths.old) controls.now }
    ensures { (line : ℕ) → slice_index depths.new line
        ≡ (if has_line line (map (λ control. control.line) controls.now) then depth
        else slice_index depths.old line) }
{
    for control in controls {
        depths[control.line as usize] = depth;
    }
}
