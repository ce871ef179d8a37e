// The gates in place of one: swaps and negative controls.
ghost use Rattle.std.specs.Prelude.{◌≡◌, ◌≢◌, ◌∷◌, [], ◌++◌, map, Some, None, IfOk, OnOk};
ghost use Rattle.list_facts.specs.Lists.{AreDifferent};
ghost use Rattle.mct_circuit.specs.Gates.{IsGateOn, flip_of};
ghost use Rattle.gate_split.specs.Split.{flips_of_negatives, split_positive, split_gate, between};
ghost use Rattle.gate_split.specs.Split.{behind};

use crate::idle::LineMarks;
use crate::narrow::is_narrow;
use crate::wide::{Flip, push_copy, push_one_flip, push_positive};
use mct_circuit::{Control, Gate, Op};
use revc_base::Memory;
use std::alloc::Global;

// Appends the gates in place of a gate, of which there are some. A narrow gate is copied at once.
pub fn push_piece(gates: &mut Vec<Gate>, gate: &Gate, marks: &mut LineMarks) -> Result<(), Memory>
    requires gate { IsGateOn marks.old gate.now }
    requires some { split_gate marks.old gate.now ≢ None }
    ensures split { OnOk result (behind gates.old.items (split_gate marks.old gate.now)
        ≡ Some gates.new.items) }
    ensures same { marks.new ≡ marks.old }
{
    if is_narrow(gate) {
        return push_copy(gates, gate);
    }
    let controls = gate.controls();
    let mut lines = lines_of(*gates.allocator(), controls)?;
    match gate.op() {
        Op::Flip(target) => {
            let flip = Flip {
                controls: &lines,
                target,
            };
            push_flip(gates, controls, flip, marks)
        }
        Op::Swap(first, second) => push_swap(gates, controls, &mut lines, first, second, marks),
    }
}

// Appends the gates in place of a swap of two lines where all lines of `lines` are 1: a flip of the
// second by the first, between flips of the first by the second.
fn push_swap(
    gates: &mut Vec<Gate>,
    controls: &[Control],
    lines: &mut Vec<u32>,
    first: u32,
    second: u32,
    marks: &mut LineMarks,
) -> Result<(), Memory>
    requires gate { IsGateOn marks.old (flip_of (lines.old.items ++ first ∷ []) second) }
    requires apart { AreDifferent (second ∷ first ∷ []) }
    requires some { split_positive marks.old (lines.old.items ++ first ∷ []) second ≢ None }
    ensures split { OnOk result (behind gates.old.items (between (flip_of (second ∷ []) first ∷ [])
        (between (flips_of_negatives controls.now)
        (split_positive marks.old (lines.old.items ++ first ∷ []) second)))
        ≡ Some gates.new.items) }
    ensures same { marks.new ≡ marks.old }
{
    lines.push(first)?;
    let flip = Flip {
        controls: lines,
        target: second,
    };
    push_one_flip(gates, &[second], first)?;
    push_flip(gates, controls, flip, marks)?;
    push_one_flip(gates, &[second], first)
}

// Appends the gates in place of a flip, between flips of the lines of negative controls.
fn push_flip(
    gates: &mut Vec<Gate>,
    controls: &[Control],
    flip: Flip,
    marks: &mut LineMarks,
) -> Result<(), Memory>
    requires gate { IsGateOn marks.old (flip_of flip.controls.now flip.target) }
    requires some { split_positive marks.old flip.controls.now flip.target ≢ None }
    ensures split { OnOk result (behind gates.old.items
        (between (flips_of_negatives controls.now)
        (split_positive marks.old flip.entry.controls.now flip.entry.target))
        ≡ Some gates.new.items) }
    ensures same { marks.new ≡ marks.old }
{
    push_negatives(gates, controls)?;
    push_positive(gates, flip, marks)?;
    push_negatives(gates, controls)
}

// Appends a flip of each line of a negative control.
fn push_negatives(gates: &mut Vec<Gate>, controls: &[Control]) -> Result<(), Memory>
    ensures { OnOk result (gates.new.items ≡ gates.old.items ++ flips_of_negatives controls.now) }
{
    for control in controls {
        if control.positive {
            continue;
        }
        push_one_flip(gates, &[], control.line)?;
    }
    Ok(())
}

fn lines_of(alloc: Global, controls: &[Control]) -> Result<Vec<u32>, Memory>
    ensures { IfOk result (λ lines. lines.items ≡ map (λ control. control.line) controls.now) }
{
    Ok(controls.iter().map(|control| control.line).collect(alloc)?)
}
