// Plans as scripts: any list of steps gives a clean plan, or none.
ghost use Rattle.std.specs.Prelude.{◌≡◌, ◌↔◌, IfOk, IfSome, IsSome, Some, None, if◌then◌else◌};
ghost use Rattle.std.specs.Prelude.{length};
ghost use Rattle.sum_graph.specs.Graphs.{sum_outputs};
ghost use Rattle.circuit_plans.specs.Plans.{IsNarrowPlan};
ghost use Rattle.line_states.specs.Steps.{LeadToEnd, took};

use crate::gathers::Pair;
use crate::states::LineStates;
use circuit_plans::{Budget, Planned, Start};
use revc_base::Memory;
use std::alloc::Global;
use sum_graph::SumGraph;

/// A step of a script: a new line, which stands behind all others and holds nothing; a copy from
/// one line to another; a toggle of a node onto a line. The outputs are the nodes behind those of
/// the graph.
#[derive(Drop)]
pub enum Step {
    Line,
    Copy {
        from: u32,
        to: u32,
    },
    Toggle {
        node: u32,
        onto: u32,
        pairs: Vec<Pair>,
    },
}

/// The plan that the steps make, from lines of the inputs and outputs alone, where the output lines
/// may hold what `start` says; none where a step is refused, where the lines are not as at an end,
/// or where the budget lacks the lines to begin.
pub fn follow(
    alloc: Global,
    graph: &SumGraph,
    budget: &Budget,
    start: Start,
    steps: &[Step],
) -> Result<Option<Planned>, Memory>
    ensures plan { IfOk result (λ found. IfSome found (IsNarrowPlan start
        graph.now.inputs (length graph.now.outputs) (sum_outputs graph.now) budget.now)) }
    ensures exact { IfOk result (λ found. IsSome found
        ↔ LeadToEnd graph.now budget.now start steps.now) }
{
    let ports = graph.inputs() + graph.outputs().len() as u32;
    if ports + budget.borrow() > budget.lines() {
        return Ok(None);
    }
    let mut states = LineStates::new(alloc, graph, budget, start)?;
    for step in steps {
        if !take(alloc, &mut states, step)? {
            return Ok(None);
        }
    }
    Ok(states.finish())
}

// Takes a step; false where it is refused.
fn take(alloc: Global, states: &mut LineStates<'_>, step: &Step) -> Result<bool, Memory>
    ensures takes { IfOk result (λ done. took states.old step.now
        ≡ if done then Some states.new else None) }
    ensures graph { IfOk result (λ _. states.new.graph ≡ states.old.graph) }
    ensures budget { IfOk result (λ _. states.new.budget ≡ states.old.budget) }
    ensures start { IfOk result (λ _. states.new.start ≡ states.old.start) }
{
    match step {
        Step::Line => states.push_line(alloc),
        Step::Copy { from, to } => states.copy(alloc, *from, *to),
        Step::Toggle { node, onto, pairs } => states.toggle(alloc, *node, *onto, pairs),
    }
}
