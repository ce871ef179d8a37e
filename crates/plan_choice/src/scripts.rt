// The moves of planners as the steps of a script, and the plan that the machine makes of them.
ghost use Rattle.std.specs.Prelude.{IfOk, IfSome, length};
ghost use Rattle.circuit_plans.specs.Plans.{IsNarrowPlan};
ghost use Rattle.sum_graph.specs.Graphs.{sum_outputs};

use circuit_plans::{Budget, Planned, Start};
use line_moves::{Gathering, Gatherings, Move, Moves};
use line_states::{Gather, Pair, Step, follow};
use plan_tools::Stop;
use revc_base::Memory;
use std::alloc::Global;
use sum_graph::SumGraph;

// The plan that the moves of a planner make; none where it gave up, or its moves make none.
pub fn follow_moves(
    alloc: Global,
    graph: &SumGraph,
    budget: &Budget,
    start: Start,
    moves: Result<Moves, Stop>,
) -> Result<Option<Planned>, Memory>
    ensures { IfOk result (λ found. IfSome found (IsNarrowPlan start graph.now.inputs
        (length graph.now.outputs) (sum_outputs graph.now) budget.now)) }
{
    match moves {
        Ok(moves) => follow(alloc, graph, budget, start, &script(alloc, &moves)?),
        Err(Stop::GaveUp) => Ok(None),
        Err(Stop::Memory(memory)) => Err(memory),
    }
}

// The steps of moves, behind their work lines.
fn script(alloc: Global, moves: &Moves) -> Result<Vec<Step>, Memory> {
    let mut steps = Vec::new(alloc);
    for _ in 0..moves.work {
        steps.push(Step::Line)?;
    }
    for step in &moves.list {
        steps.push(step_of(alloc, &moves.gatherings, *step)?)?;
    }
    Ok(steps)
}

// A toggle whose gatherings stand nowhere gets none, and so is refused.
fn step_of(alloc: Global, gatherings: &[Vec<Gatherings>], step: Move) -> Result<Step, Memory> {
    match step {
        Move::Copy { from, to } => Ok(Step::Copy { from, to }),
        Move::Toggle { node, onto, place } => {
            let pairs = match gatherings.get(place as usize) {
                Some(all) => pairs_of(alloc, all)?,
                None => Vec::new(alloc),
            };
            Ok(Step::Toggle { node, onto, pairs })
        }
    }
}

fn pairs_of(alloc: Global, all: &[Gatherings]) -> Result<Vec<Pair>, Memory> {
    let mut pairs = Vec::new(alloc);
    for gatherings in all {
        pairs.push(Pair {
            first: gather_of(alloc, &gatherings.first)?,
            second: gather_of(alloc, &gatherings.second)?,
        })?;
    }
    Ok(pairs)
}

fn gather_of(alloc: Global, gathering: &Gathering) -> Result<Gather, Memory> {
    Ok(Gather {
        on: gathering.on,
        others: Vec::from_slice(alloc, &gathering.others)?,
    })
}
