// How many gates a split list has, and so whether there is one, before memory is asked for.
ghost use Rattle.std.specs.Prelude.{◌≡◌, ◌+◌, ◌*◌, ◌<◌, ◌≤◌, length, IfErr, OnOk, IsErrOf, Err};
ghost use Rattle.mct_circuit.specs.Gates.{IsGateOn};
ghost use Rattle.mct_circuit.specs.Sizes.{negative_controls};
ghost use Rattle.gate_split.specs.Split.{HasSplitList, IsSplit, split_gate};
ghost use Rattle.gate_split.specs.inside.Counts.{CountsFlips, count_of, counted_on};
ghost use Rattle.gate_split.specs.inside.Counts.{counted_within};

use crate::fault::SplitFault;
use mct_circuit::{Circuit, Control, Gate, Op};

// Whether there is a split list, or exactly why there is none. It takes no memory.
pub fn decide(circuit: &Circuit, lines: u32, limit: u64) -> Result<(), SplitFault>
    requires { circuit.now.lines ≤ lines }
    ensures some { OnOk result (HasSplitList lines limit circuit.now.gates) }
    ensures none { IfErr result (λ fault. IsSplit lines limit circuit.now.gates (Err fault)) }
    ensures exact { ¬ IsErrOf result (SplitFault.Memory _) }
{
    let mut count = 0;
    let mut place = 0;
    for gate in circuit.gates() {
        count = counted_on(count, gate_count(lines, gate), place, limit)?;
        place += 1;
    }
    Ok(())
}

// So many gates and those in place of one more, where it has some and the limit allows them.
fn counted_on(count: u64, more: Option<u64>, place: u64, limit: u64) -> Result<u64, SplitFault>
    requires { count ≤ limit }
    ensures { result ≡ counted_on count more place limit }
{
    match more {
        None => Err(SplitFault::NoIdle { gate: place }),
        Some(more) => counted_within(count, more, limit),
    }
}

// The sum, where the limit allows it.
fn counted_within(count: u64, more: u64, limit: u64) -> Result<u64, SplitFault>
    requires { count ≤ limit }
    ensures { result ≡ counted_within count more limit }
{
    if more <= limit - count {
        Ok(count + more)
    } else {
        Err(SplitFault::Gates)
    }
}

// How many gates stand in place of a gate, or none where it wants an idle line and none is.
fn gate_count(lines: u32, gate: &Gate) -> Option<u64>
    requires { IsGateOn lines gate.now }
    ensures { result ≡ count_of (split_gate lines gate.now) }
{
    let controls = gate.controls();
    let own = controls.len() as u64;
    let negatives = negative_count(controls);
    match gate.op() {
        Op::Flip(_) => flip_count(lines, own, 2 * negatives),
        Op::Swap(..) => flip_count(lines, own + 1, 2 * negatives + 2),
    }
}

fn negative_count(controls: &[Control]) -> u64
    ensures count { result ≡ negative_controls controls.now }
    ensures few { result ≤ length controls.now }
{
    controls.iter().filter(|control| !control.positive).count() as u64
}

// How many gates stand in place of a flip of so many positive controls among the lines, and so many
// around them.
fn flip_count(lines: u32, controls: u64, around: u64) -> Option<u64>
    requires fits { controls < lines }
    requires few { around ≤ 2 * lines + 2 }
    ensures { CountsFlips lines controls around result }
{
    let idle = u64::from(lines) - controls - 1;
    if controls <= 2 {
        return Some(1 + around);
    }
    if controls - 2 <= idle {
        return Some(4 * (controls - 2) + around);
    }
    if idle == 0 {
        return None;
    }
    if controls == 4 {
        return Some(10 + around);
    }
    Some(8 * (controls - 3) + around)
}
