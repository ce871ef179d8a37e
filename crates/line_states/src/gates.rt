// The gates of copies and of toggles.
ghost use Rattle.std.specs.Prelude.{◌≡◌, ◌≢◌, ◌++◌, OnOk, IfOk};
ghost use Rattle.std.specs.List.{AllByRecursion};
ghost use Rattle.line_states.specs.Gathers.{both_gates, gather_gates, pair_gates, toggle_gates};
ghost use Rattle.line_states.specs.States.{copy_gates};
ghost use Rattle.line_states.specs.inside.Places.{CanFlip, IsGathered};

use crate::gathers::{Gather, Pair};
use mct_circuit::Gate;
use revc_base::Memory;
use std::alloc::Global;
use sum_toggles::{append_copies, push_copy, push_flip, push_one};

// The gate of a copy.
pub fn copy_gates(alloc: Global, from: u32, to: u32) -> Result<Vec<Gate>, Memory>
    requires { from ≢ to }
    ensures { IfOk result (λ gates. gates.items ≡ copy_gates from to) }
{
    let mut gates = Vec::new(alloc);
    push_copy(&mut gates, from, to)?;
    Ok(gates)
}

// The gates of a toggle: those of each pair, and a flip for the constant.
pub fn toggle_gates(
    alloc: Global,
    target: u32,
    pairs: &[Pair],
    one: bool,
) -> Result<Vec<Gate>, Memory>
    requires { AllByRecursion (CanFlip target) pairs.now }
    ensures { IfOk result (λ gates. gates.items ≡ toggle_gates target pairs.now one) }
{
    let mut gates = Vec::new(alloc);
    for pair in pairs {
        append_pair(&mut gates, target, pair)?;
    }
    push_one(&mut gates, target, one)?;
    Ok(gates)
}

// Appends the flip of the target under the lines of both factors, between their gathering and its
// reverse.
fn append_pair(gates: &mut Vec<Gate>, target: u32, pair: &Pair) -> Result<(), Memory>
    requires { CanFlip target pair.now }
    ensures { OnOk result (gates.new.items ≡ gates.old.items ++ pair_gates target pair.now) }
{
    let mut both = both_gates(*gates.allocator(), pair)?;
    append_copies(gates, &both)?;
    push_flip(gates, &[pair.first.on, pair.second.on], target)?;
    both.reverse();
    gates.append(&mut both)?;
    Ok(())
}

// The gates that gather both factors.
fn both_gates(alloc: Global, pair: &Pair) -> Result<Vec<Gate>, Memory>
    requires first { IsGathered pair.now.first }
    requires second { IsGathered pair.now.second }
    ensures { IfOk result (λ gates. gates.items ≡ both_gates pair.now) }
{
    let mut gates = Vec::new(alloc);
    gather(&mut gates, &pair.first)?;
    gather(&mut gates, &pair.second)?;
    Ok(gates)
}

// Adds the other lines of a factor to its line.
fn gather(gates: &mut Vec<Gate>, gather: &Gather) -> Result<(), Memory>
    requires { IsGathered gather.now }
    ensures { OnOk result (gates.new.items
        ≡ gates.old.items ++ gather_gates gather.now.on gather.now.others) }
{
    for line in &gather.others {
        push_copy(gates, *line, gather.on)?;
    }
    Ok(())
}
