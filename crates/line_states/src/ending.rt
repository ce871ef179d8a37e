// Whether all lines hold what they hold at the end.
ghost use Rattle.std.specs.Prelude.{◌≡◌, ◌≤◌, ◌∷◌, [], IsTrue, ◌↔◌, length, List};
ghost use Rattle.std.specs.List.{AllByRecursion};
ghost use Rattle.list_facts.specs.Lists.{AllFrom};
ghost use Rattle.dependency_graph.specs.declared.node.Base.{Base};
ghost use Rattle.dependency_graph.specs.declared.node.Base.TheVariants as bases;
ghost use Rattle.circuit_plans.specs.declared.plan.TheConstants.{MOST_LINES};
ghost use Rattle.line_states.specs.States.{AreEndSets, ended_set, output_set};
ghost use Rattle.revs_tape.specs.declared.limits.TheConstants.{MOST_INPUTS, MOST_WRITES};

use crate::sets::{is_alone, is_pair};
use circuit_plans::Start;
use dependency_graph::Base;
use revc_base::Key;

/// What output lines may hold at the start, and how many inputs and nodes there are.
#[derive(Clone, Copy)]
pub struct Ends {
    pub start: Start,
    pub inputs: u32,
    pub nodes: u32,
}

// Whether all lines hold what they hold at the end.
pub fn are_ended(
    ends: Ends,
    inputs: &[Key<Base>],
    outputs: &[Key<Base>],
    work: &[Key<Base>],
) -> bool
    requires inputs { ends.inputs ≤ MOST_INPUTS }
    requires nodes { ends.nodes ≤ MOST_WRITES }
    requires few { length inputs.now ≤ MOST_LINES }
    requires few_outputs { length outputs.now ≤ MOST_LINES }
    ensures { IsTrue result
        ↔ AreEndSets ends.start ends.inputs ends.nodes inputs.now outputs.now work.now }
{
    are_inputs(inputs) && are_outputs(ends, outputs) && are_empty(work)
}

// Whether each set is that of an input, in order.
fn are_inputs(sets: &[Key<Base>]) -> bool
    requires { length sets.now ≤ MOST_LINES }
    ensures { IsTrue result
        ↔ AllFrom (λ i (set : List Base). set ≡ bases.Input i ∷ []) 0 sets.now }
{
    for (i, set) in sets.iter().enumerate() {
        if !is_alone(set.items(), Base::Input(i as u32)) {
            return false;
        }
    }
    true
}

// Whether each set is that of an output line, in order, behind so many inputs and nodes.
fn are_outputs(ends: Ends, sets: &[Key<Base>]) -> bool
    requires inputs { ends.inputs ≤ MOST_INPUTS }
    requires nodes { ends.nodes ≤ MOST_WRITES }
    requires few { length sets.now ≤ MOST_LINES }
    ensures { IsTrue result ↔ AllFrom
        (λ k (set : List Base). set ≡ ended_set ends.start ends.inputs ends.nodes k) 0 sets.now }
{
    for (k, set) in sets.iter().enumerate() {
        let k = k as u32;
        let (held, output) = (Base::Input(ends.inputs + k), Base::Node(ends.nodes + k));
        if !is_output(set.items(), ends.start, held, output) {
            return false;
        }
    }
    true
}

// Whether a set is that of a line with this output, which held that bit.
fn is_output(set: &[Base], start: Start, held: Base, output: Base) -> bool
    ensures { IsTrue result ↔ (set.now ≡ output_set start held output) }
{
    match start {
        Start::Any => is_pair(set, held, output),
        Start::Zero => is_alone(set, output),
    }
}

// Whether no set has a bit.
fn are_empty(sets: &[Key<Base>]) -> bool
    ensures { IsTrue result ↔ AllByRecursion (λ (set : List Base). set ≡ []) sets.now }
{
    for set in sets {
        if !set.items().is_empty() {
            return false;
        }
    }
    true
}
