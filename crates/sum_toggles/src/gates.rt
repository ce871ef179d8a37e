// Single gates, and the lines of bases.
ghost use Rattle.std.specs.Prelude.{◌≡◌, ◌≢◌, ◌+◌, ◌∷◌, [], ◌++◌, OnOk};
ghost use Rattle.list_facts.specs.Lists.{AreDifferent};
ghost use Rattle.mct_circuit.specs.Gates.{flip_of};
ghost use Rattle.sum_toggles.specs.Toggles.{IsPlacedBase, base_line, one_gates};

use dependency_graph::Base;
use mct_circuit::Gate;
use revc_base::Memory;

// The lines of bases: `lines` holds the work line of each node that is held, `first` is the first
// work line.
#[derive(Clone, Copy)]
pub struct Lines<'s> {
    pub first: u32,
    pub lines: &'s [Option<u32>],
}

impl<'s> Lines<'s> {
    // The line of an input, or of a node that is held: an input has its own number, and a node that
    // of its work line behind the lines before `first`.
    pub fn line_of(self, base: Base) -> u32
        requires { IsPlacedBase self.first self.lines.now base }
        ensures { result ≡ base_line self.entry.first self.entry.lines.now base }
    {
        match base {
            Base::Input(i) => i,
            Base::Node(k) => self.first + self.lines[k as usize].unwrap_or(0),
        }
    }
}

/// Appends the flip of `target` where all lines of `controls` are 1.
pub fn push_flip(gates: &mut Vec<Gate>, controls: &[u32], target: u32) -> Result<(), Memory>
    requires { AreDifferent (controls.now ++ target ∷ []) }
    ensures { OnOk result (gates.new.items
        ≡ gates.old.items ++ flip_of controls.now target ∷ []) }
{
    let gate = Gate::flip(*gates.allocator(), controls, target)?;
    gates.push(gate)?;
    Ok(())
}

/// Appends the flip of `target` where `line` is 1.
pub fn push_copy(gates: &mut Vec<Gate>, line: u32, target: u32) -> Result<(), Memory>
    requires { line ≢ target }
    ensures { OnOk result (gates.new.items
        ≡ gates.old.items ++ flip_of (line ∷ []) target ∷ []) }
{
    push_flip(gates, &[line], target)
}

/// Appends the flip of `target`, if `one`.
pub fn push_one(gates: &mut Vec<Gate>, target: u32, one: bool) -> Result<(), Memory>
    ensures { OnOk result (gates.new.items ≡ gates.old.items ++ one_gates target one) }
{
    if one {
        push_flip(gates, &[], target)
    } else {
        Ok(())
    }
}

/// Appends copies of some gates.
pub fn append_copies(gates: &mut Vec<Gate>, more: &[Gate]) -> Result<(), Memory>
    ensures { OnOk result (gates.new.items ≡ gates.old.items ++ more.now) }
{
    for gate in more {
        gates.push(gate.copy()?)?;
    }
    Ok(())
}
