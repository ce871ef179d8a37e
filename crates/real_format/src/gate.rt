// The gate lines of a `.real` text.
ghost use Rattle.std.specs.Prelude.{◌≡◌, ℕ, ◌+◌, ◌<◌, ◌≤◌, List, [], ◌∷◌, length, Some, None, Ok};
ghost use Rattle.std.specs.Prelude.{Err, OnOk, IfOk, IfErr, IsErrOf, slice_set, slice_index};
ghost use Rattle.std.specs.List.{AllByRecursion};
ghost use Rattle.mct_circuit.specs.Gates.{IsGateOn};
ghost use Rattle.real_format.specs.inside.Reading.{Refuses, alone, has_sign, targets_in, shape_of};
ghost use Rattle.real_format.specs.inside.Reading.{line_of, control_of, controls_from};
ghost use Rattle.real_format.specs.inside.Reading.{target_of, op_of};
ghost use Rattle.real_format.specs.inside.Reading.{gate_of, lines_of_controls};
ghost use Rattle.real_format.specs.inside.Stamps.{is_stamped, AreStamped};

use crate::refusal::LineRefusal;
use crate::words::{Words, begins_name, number};
use circuit_plans::MOST_LINES;
use format_parts::Names;
use mct_circuit::{Control, Gate, Op};
use revc_base::limits::MOST_NAME_BYTES;
use std::alloc::Global;

// What the word of a gate says: how many controls and how many changed lines are named behind it.
#[derive(Clone, Copy)]
pub struct Shape {
    pub controls: u32,
    pub targets: u32,
}

impl Shape {
    // What this word of a gate says.
    pub fn of(word: &[u8]) -> Option<Shape>
        ensures { result ≡ shape_of word.now }
    {
        if word.is_empty() {
            return None;
        }
        let targets = targets_in(word[0])?;
        let (_, digits) = word.split_at(1);
        if digits.len() > 5 {
            return None;
        }
        let count = number(digits, 99_999)?;
        if count < targets {
            return None;
        }
        Some(Shape {
            controls: count - targets,
            targets,
        })
    }
}

fn targets_in(letter: u8) -> Option<u32>
    ensures { result ≡ targets_in letter }
{
    match letter {
        b't' => Some(1),
        b'f' => Some(2),
        _ => None,
    }
}

// The gate of these words behind its first one. A line is the gate's where it has the gate's stamp.
pub fn gate_of(
    alloc: Global,
    names: &Names,
    stamps: &mut [u32],
    stamp: u32,
    shape: Shape,
    words: &mut Words,
) -> Result<Gate, LineRefusal>
    requires fit { length stamps.old ≡ length names.now }
    requires few { length names.now ≤ MOST_LINES }
    requires fresh { AllByRecursion (λ s. s < stamp) stamps.old }
    ensures ok { IfOk result (λ gate. gate_of names.now shape words.old ≡ Ok gate) }
    ensures placed { IfOk result (IsGateOn (length names.now)) }
    ensures stamps { OnOk result (AllByRecursion (λ s. s ≤ stamp) stamps.new) }
    ensures err { IfErr result (Refuses (gate_of names.now shape words.old)) }
{
    let controls = controls_of(alloc, names, stamps, stamp, shape.controls, words)?;
    let op = op_of(names, stamps, stamp, shape.targets, words)?;
    Ok(Gate::new(controls, op))
}

// So many controls.
fn controls_of(
    alloc: Global,
    names: &Names,
    stamps: &mut [u32],
    stamp: u32,
    wanted: u32,
    words: &mut Words,
) -> Result<Vec<Control>, LineRefusal>
    requires fit { length stamps.old ≡ length names.now }
    requires few { length names.now ≤ MOST_LINES }
    requires fresh { AllByRecursion (λ s. s < stamp) stamps.old }
    ensures ok { IfOk result (λ controls. controls_from names.now wanted [] words.old
        ≡ Ok (controls.items, words.new)) }
    ensures stamps { IfOk result (λ controls.
        AreStamped stamps.new stamp (lines_of_controls controls.items)) }
    ensures err { IfErr result (Refuses (controls_from names.now wanted [] words.old)) }
{
    let mut controls = Vec::with_capacity(alloc, names.len().min(wanted as usize))?;
    'controls: while controls.len() < wanted as usize {
        let Some(word) = words.next() else {
            return Err(LineRefusal::Form);
        };
        controls.push(control_of(names, stamps, stamp, word)?)?;
    }
    Ok(controls)
}

// A control, which is negative where a `-` stands before its line's name.
fn control_of(
    names: &Names,
    stamps: &mut [u32],
    stamp: u32,
    word: &[u8],
) -> Result<Control, LineRefusal>
    requires fit { length stamps.old ≡ length names.now }
    requires few { length names.now ≤ MOST_LINES }
    ensures ok { IfOk result (λ control.
        control_of names.now (is_stamped stamps.old stamp) word.now ≡ Ok control) }
    ensures stamped { IfOk result (λ control.
        stamps.new ≡ slice_set stamps.old control.line stamp) }
    ensures in_range { IfOk result (λ control. control.line < length names.now) }
    ensures err { IfErr result (Refuses
        (control_of names.now (is_stamped stamps.old stamp) word.now)) }
    ensures exact { ¬ IsErrOf result (LineRefusal.Memory _) }
{
    if has_sign(word) {
        let (_, name) = word.split_at(1);
        let line = line_of(names, stamps, stamp, name)?;
        return Ok(Control {
            line,
            positive: false,
        });
    }
    let line = line_of(names, stamps, stamp, word)?;
    Ok(Control {
        line,
        positive: true,
    })
}

// The line of this name, which the gate did not have yet.
fn line_of(names: &Names, stamps: &mut [u32], stamp: u32, word: &[u8]) -> Result<u32, LineRefusal>
    requires fit { length stamps.old ≡ length names.now }
    requires few { length names.now ≤ MOST_LINES }
    ensures ok { IfOk result (λ line.
        line_of names.now (is_stamped stamps.old stamp) word.now ≡ Ok line) }
    ensures stamped { IfOk result (λ line. stamps.new ≡ slice_set stamps.old line stamp) }
    ensures in_range { IfOk result (λ line. line < length names.now) }
    ensures err { IfErr result (Refuses
        (line_of names.now (is_stamped stamps.old stamp) word.now)) }
    ensures exact { ¬ IsErrOf result (LineRefusal.Memory _) }
{
    if !begins_name(word) {
        return Err(LineRefusal::Form);
    }
    if word.len() > MOST_NAME_BYTES {
        return Err(LineRefusal::Limit);
    }
    let Some(line) = names.place(word) else {
        return Err(LineRefusal::Form);
    };
    if stamps[line] == stamp {
        return Err(LineRefusal::Form);
    }
    stamps[line] = stamp;
    Ok(line as u32)
}

fn has_sign(word: &[u8]) -> bool
    ensures { result ≡ has_sign word.now }
{
    !word.is_empty() && word[0] == b'-'
}

// What the gate does, by the lines that are named last.
fn op_of(
    names: &Names,
    stamps: &mut [u32],
    stamp: u32,
    targets: u32,
    words: &mut Words,
) -> Result<Op, LineRefusal>
    requires fit { length stamps.old ≡ length names.now }
    requires few { length names.now ≤ MOST_LINES }
    requires stamps { AllByRecursion (λ s. s ≤ stamp) stamps.old }
    ensures ok { IfOk result (λ op.
        op_of names.now targets (is_stamped stamps.old stamp) words.old ≡ Ok op) }
    ensures stamps { OnOk result (AllByRecursion (λ s. s ≤ stamp) stamps.new) }
    ensures err { IfErr result (Refuses
        (op_of names.now targets (is_stamped stamps.old stamp) words.old)) }
    ensures exact { ¬ IsErrOf result (LineRefusal.Memory _) }
{
    let first = target_of(names, stamps, stamp, words)?;
    if targets == 1 {
        return alone(Op::Flip(first), words);
    }
    let second = target_of(names, stamps, stamp, words)?;
    alone(Op::Swap(first, second), words)
}

// The line that the next word names, which the gate did not have yet.
fn target_of(
    names: &Names,
    stamps: &mut [u32],
    stamp: u32,
    words: &mut Words,
) -> Result<u32, LineRefusal>
    requires fit { length stamps.old ≡ length names.now }
    requires few { length names.now ≤ MOST_LINES }
    ensures ok { IfOk result (λ line.
        target_of names.now (is_stamped stamps.old stamp) words.old ≡ Ok (line, words.new)) }
    ensures stamped { IfOk result (λ line. stamps.new ≡ slice_set stamps.old line stamp) }
    ensures in_range { IfOk result (λ line. line < length names.now) }
    ensures err { IfErr result (Refuses
        (target_of names.now (is_stamped stamps.old stamp) words.old)) }
    ensures exact { ¬ IsErrOf result (LineRefusal.Memory _) }
{
    let Some(word) = words.next() else {
        return Err(LineRefusal::Form);
    };
    line_of(names, stamps, stamp, word)
}

// The operation, where no word is left.
fn alone(op: Op, words: &mut Words) -> Result<Op, LineRefusal>
    ensures ok { IfOk result (λ alone_op. alone op words.old ≡ Ok alone_op) }
    ensures err { IfErr result (Refuses (alone op words.old)) }
    ensures exact { ¬ IsErrOf result (LineRefusal.Memory _) }
{
    if !words.is_done() {
        return Err(LineRefusal::Form);
    }
    Ok(op)
}
