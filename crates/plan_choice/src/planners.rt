// The planners that hand over moves, asked over a graph of sums.
ghost use Rattle.std.specs.Prelude.{length, IfOk, IfSome};
ghost use Rattle.circuit_plans.specs.Plans.{IsNarrowPlan};
ghost use Rattle.sum_graph.specs.Graphs.{sum_outputs};

use crate::scripts::follow_moves;
use circuit_plans::{Budget, Planned, Start};
use line_moves::Moves;
use plan_tools::{Limits, Stop};
use revc_base::Memory;
use std::alloc::Global;
use sum_graph::SumGraph;

// Which planner is asked.
#[derive(Clone, Copy)]
pub enum Planner {
    // One that keeps each node on one line, for at most so many Toffoli gates.
    Homes { toffoli: u64 },
    // One that sweeps over spans, for at most so many Toffoli gates.
    Spans { toffoli: u64 },
    // One of small Toffoli depth, over a graph of single products.
    Layers,
    // One with a state on the output lines, over a graph of single products.
    State,
}

impl Planner {
    // Whether the output lines of its plans may hold that at the start.
    pub fn takes(self, start: Start) -> bool {
        match self {
            Planner::Homes { .. } | Planner::Layers => true,
            Planner::Spans { .. } | Planner::State => start == Start::Zero,
        }
    }

    fn moves(
        self,
        alloc: Global,
        sums: &SumGraph,
        limits: Limits,
        start: Start,
    ) -> Result<Moves, Stop> {
        match self {
            Planner::Homes { toffoli } => {
                home_plans::plan(alloc, sums, limits, start == Start::Zero, toffoli)
            }
            Planner::Spans { toffoli } => span_plans::plan(alloc, sums, limits, toffoli),
            Planner::Layers => shallow_plans::plan(alloc, sums, limits),
            Planner::State => state_plans::plan(alloc, sums, limits),
        }
    }
}

// The plan that a planner finds over a graph of sums, if there is one; none where the output lines
// may hold what it does not take.
pub fn plan_over(
    alloc: Global,
    sums: &SumGraph,
    budget: &Budget,
    start: Start,
    planner: Planner,
) -> Result<Option<Planned>, Memory>
    ensures { IfOk result (λ found. IfSome found (IsNarrowPlan start sums.now.inputs
        (length sums.now.outputs) (sum_outputs sums.now) budget.now)) }
{
    if !planner.takes(start) {
        return Ok(None);
    }
    let moves = planner.moves(alloc, sums, limits_of(budget), start);
    follow_moves(alloc, sums, budget, start, moves)
}

// The budget as planners take it.
fn limits_of(budget: &Budget) -> Limits {
    Limits {
        lines: budget.lines(),
        gates: budget.gates(),
        borrow: budget.borrow(),
    }
}
