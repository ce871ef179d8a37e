// Flips under positive controls, split over idle lines (Barenco and others 1995, Lemmas 7.2 and
// 7.3).
ghost use Rattle.std.specs.Prelude.{◌≡◌, ℕ, ◌+◌, ◌-◌, ◌<◌, ◌≤◌, ◌∷◌, [], ◌++◌, length, reverse};
ghost use Rattle.std.specs.Prelude.{◌≢◌, take, Some, None, IfOk, OnOk};
ghost use Rattle.std.specs.List.{AllByRecursion};
ghost use Rattle.list_facts.specs.Lists.{AreDifferent};
ghost use Rattle.mct_circuit.specs.Gates.{HasDifferentLines, IsGateOn, flip_of};
ghost use Rattle.gate_split.specs.inside.Idle.{Serves};
ghost use Rattle.gate_split.specs.Split.{Avoids};
ghost use Rattle.gate_split.specs.Split.{ladder, there_and_back, over_idle_lines, with_enough_idle};
ghost use Rattle.gate_split.specs.Split.{first_flips, second_flips, in_falling_order};
ghost use Rattle.gate_split.specs.Split.{idle_lines, split_positive, behind};

use crate::idle::LineMarks;
use mct_circuit::Gate;
use revc_base::Memory;
use std::alloc::Global;

// A flip of one line under positive controls.
#[derive(Clone, Copy)]
pub struct Flip<'a> {
    pub controls: &'a [u32],
    pub target: u32,
}

// Appends the gates in place of a flip, of which there are some.
pub fn push_positive(gates: &mut Vec<Gate>, flip: Flip, marks: &mut LineMarks) -> Result<(), Memory>
    requires gate { IsGateOn marks.old (flip_of flip.controls.now flip.target) }
    requires some { split_positive marks.old flip.controls.now flip.target ≢ None }
    ensures split { OnOk result (behind gates.old.items
        (split_positive marks.old flip.entry.controls.now flip.entry.target)
        ≡ Some gates.new.items) }
    ensures same { marks.new ≡ marks.old }
{
    let Flip { controls, target } = flip;
    if controls.len() <= 2 {
        return push_one_flip(gates, controls, target);
    }
    let idle = marks.falling_lines(controls, &[target], false, controls.len() - 2)?;
    push_wide(gates, flip, &idle, marks)
}

// Appends one flip under positive controls.
pub fn push_one_flip(gates: &mut Vec<Gate>, controls: &[u32], target: u32) -> Result<(), Memory>
    requires { AreDifferent (controls.now ++ target ∷ []) }
    ensures { OnOk result (gates.new.items ≡ gates.old.items ++ flip_of controls.now target ∷ []) }
{
    let alloc = *gates.allocator();
    let flip = Gate::flip(alloc, controls, target)?;
    gates.push(flip)?;
    Ok(())
}

// Appends the gates in place of a flip under three or more controls, of which these are the first
// idle lines. Over too few of them it is the flips of both halves, twice.
fn push_wide(
    gates: &mut Vec<Gate>,
    flip: Flip,
    idle: &[u32],
    marks: &mut LineMarks,
) -> Result<(), Memory>
    requires gate { IsGateOn marks.old (flip_of flip.controls.now flip.target) }
    requires some { split_positive marks.old flip.controls.now flip.target ≢ None }
    requires wide { 2 < length flip.controls.now }
    requires found { idle.now ≡ take (length flip.controls.now - 2)
        (idle_lines marks.old (flip.controls.now ++ flip.target ∷ [])) }
    ensures split { OnOk result (behind gates.old.items
        (split_positive marks.old flip.entry.controls.now flip.entry.target)
        ≡ Some gates.new.items) }
    ensures same { marks.new ≡ marks.old }
{
    if idle.len() == flip.controls.len() - 2 {
        return push_over_idle(gates, flip, idle);
    }
    let mut once = Vec::new(*gates.allocator());
    push_halves(&mut once, flip, idle[0], marks)?;
    append_twice(gates, &mut once)
}

// Appends the flip of the target by the second half and the idle line, and the flip of the idle
// line by the first half.
fn push_halves(
    gates: &mut Vec<Gate>,
    flip: Flip,
    idle: u32,
    marks: &mut LineMarks,
) -> Result<(), Memory>
    requires gate { IsGateOn marks.old (flip_of flip.controls.now flip.target) }
    requires four { 4 ≤ length flip.controls.now }
    requires below { idle < marks.old }
    requires apart { Avoids idle (flip.controls.now ++ flip.target ∷ []) }
    ensures made { OnOk result (gates.new.items ≡ gates.old.items
        ++ (second_flips marks.old flip.entry.controls.now flip.entry.target idle
        ++ first_flips marks.old flip.entry.controls.now flip.entry.target idle)) }
    ensures same { marks.new ≡ marks.old }
{
    let Flip { controls, target } = flip;
    let (first, second) = controls.split_at(controls.len() - controls.len() / 2);
    let with_idle = with_line(*gates.allocator(), second, idle)?;
    let upper = Flip {
        controls: &with_idle,
        target,
    };
    let lower = Flip {
        controls: first,
        target: idle,
    };
    push_among(gates, upper, first, &[], marks)?;
    push_among(gates, lower, second, &[target], marks)
}

// Appends a flip over lines that are among those of `front` and `back`.
fn push_among(
    gates: &mut Vec<Gate>,
    flip: Flip,
    front: &[u32],
    back: &[u32],
    marks: &mut LineMarks,
) -> Result<(), Memory>
    requires below { AllByRecursion (λ line. line < marks.old) (front.now ++ back.now) }
    requires serves { Serves marks.old flip.controls.now flip.target
        (in_falling_order marks.old (front.now ++ back.now)) }
    requires enough { length flip.controls.now
        ≤ length (in_falling_order marks.old (front.now ++ back.now)) + 2 }
    ensures made { OnOk result (gates.new.items ≡ gates.old.items
        ++ with_enough_idle flip.entry.controls.now flip.entry.target
        (in_falling_order marks.old (front.now ++ back.now))) }
    ensures same { marks.new ≡ marks.old }
{
    let idle = marks.falling_lines(front, back, true, flip.controls.len())?;
    push_enough(gates, flip, &idle)
}

// Appends the gates twice, and leaves `once` empty.
fn append_twice(gates: &mut Vec<Gate>, once: &mut Vec<Gate>) -> Result<(), Memory>
    ensures { OnOk result (gates.new.items
        ≡ (gates.old.items ++ once.old.items) ++ once.old.items) }
{
    push_copies(gates, once)?;
    gates.append(once)?;
    Ok(())
}

// Appends a flip that has two idle lines less than controls, or more.
fn push_enough(gates: &mut Vec<Gate>, flip: Flip, idle: &[u32]) -> Result<(), Memory>
    requires serves { (n : ℕ) × Serves n flip.controls.now flip.target idle.now }
    requires enough { length flip.controls.now ≤ length idle.now + 2 }
    ensures { OnOk result (gates.new.items ≡ gates.old.items
        ++ with_enough_idle flip.entry.controls.now flip.entry.target idle.now) }
{
    let Flip { controls, target } = flip;
    if controls.len() <= 2 {
        return push_one_flip(gates, controls, target);
    }
    push_over_idle(gates, flip, &idle[..controls.len() - 2])
}

// Appends a flip that has two idle lines less than controls.
fn push_over_idle(gates: &mut Vec<Gate>, flip: Flip, idle: &[u32]) -> Result<(), Memory>
    requires long { length flip.controls.now ≡ length idle.now + 2 }
    requires different { AllByRecursion HasDifferentLines
        (ladder flip.target (reverse flip.controls.now) (reverse idle.now)) }
    ensures { OnOk result (gates.new.items ≡ gates.old.items
        ++ over_idle_lines flip.entry.controls.now flip.entry.target idle.now) }
{
    let rungs = rungs(*gates.allocator(), flip, idle)?;
    let (_, lower) = rungs.split_at(1);
    push_there_and_back(gates, &rungs)?;
    push_there_and_back(gates, lower)
}

// The flips from the target down to the first idle line.
fn rungs(alloc: Global, flip: Flip, idle: &[u32]) -> Result<Vec<Gate>, Memory>
    requires long { length flip.controls.now ≡ length idle.now + 2 }
    requires different { AllByRecursion HasDifferentLines
        (ladder flip.target (reverse flip.controls.now) (reverse idle.now)) }
    ensures { IfOk result (λ rungs. rungs.items
        ≡ ladder flip.entry.target (reverse flip.entry.controls.now) (reverse idle.now)) }
{
    let Flip { controls, target } = flip;
    let mut rungs = Vec::with_capacity(alloc, idle.len())?;
    let mut top = target;
    let mut i = idle.len();
    while i > 0 {
        i -= 1;
        push_one_flip(&mut rungs, &[controls[i + 2], idle[i]], top)?;
        top = idle[i];
    }
    push_one_flip(&mut rungs, &controls[..2], top)?;
    Ok(rungs)
}

// Appends the gates, and then all but the last one once more, backwards.
fn push_there_and_back(gates: &mut Vec<Gate>, rungs: &[Gate]) -> Result<(), Memory>
    ensures { OnOk result (gates.new.items ≡ gates.old.items ++ there_and_back rungs.now) }
{
    push_copies(gates, rungs)?;
    let mut i = rungs.len();
    while i > 1 {
        i -= 1;
        push_copy(gates, &rungs[i - 1])?;
    }
    Ok(())
}

fn push_copies(gates: &mut Vec<Gate>, copied: &[Gate]) -> Result<(), Memory>
    ensures { OnOk result (gates.new.items ≡ gates.old.items ++ copied.now) }
{
    for gate in copied {
        push_copy(gates, gate)?;
    }
    Ok(())
}

// Appends a copy of a gate.
pub fn push_copy(gates: &mut Vec<Gate>, gate: &Gate) -> Result<(), Memory>
    ensures { OnOk result (gates.new.items ≡ gates.old.items ++ gate.now ∷ []) }
{
    let copy = gate.copy()?;
    gates.push(copy)?;
    Ok(())
}

// The lines and one more behind them.
fn with_line(alloc: Global, lines: &[u32], line: u32) -> Result<Vec<u32>, Memory>
    ensures { IfOk result (λ all. all.items ≡ lines.now ++ line ∷ []) }
{
    let mut all = Vec::from_slice(alloc, lines)?;
    all.push(line)?;
    Ok(all)
}
