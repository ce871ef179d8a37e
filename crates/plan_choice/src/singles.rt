// Planners over a graph whose nodes have one product at most.
ghost use Rattle.std.specs.Prelude.{length, IfOk, IfSome};
ghost use Rattle.circuit_plans.specs.Plans.{IsNarrowPlan};
ghost use Rattle.claim_check.specs.Settled.{settled_outputs};
ghost use Rattle.plan_choice.specs.inside.Tried.{HasOutputsOf};

use crate::planners::{Planner, plan_over};
use circuit_plans::{Budget, Planned, Start};
use claim_check::Settled;
use revc_base::Memory;
use single_products::single_products;
use std::alloc::Global;
use sum_graph::SumGraph;

// The plan that a planner finds over the graph of single products of a lean graph whose factors
// have at most so many bits, if there is one; none where the output lines may hold what it does not
// take.
pub fn plan_single(
    alloc: Global,
    graph: &Settled,
    bits: usize,
    budget: &Budget,
    start: Start,
    planner: Planner,
) -> Result<Option<Planned>, Memory>
    ensures { IfOk result (λ found. IfSome found (IsNarrowPlan start graph.now.inputs
        (length graph.now.outputs) (settled_outputs graph.now) budget.now)) }
{
    if !planner.takes(start) {
        return Ok(None);
    }
    let lean = SumGraph::lean(alloc, graph, bits)?;
    plan_single_of(alloc, graph, &lean, budget, start, planner)
}

// The plan that a planner finds over the graph of single products of a graph of sums, if there is
// one, as one of the settled graph.
pub fn plan_single_of(
    alloc: Global,
    graph: &Settled,
    sums: &SumGraph,
    budget: &Budget,
    start: Start,
    planner: Planner,
) -> Result<Option<Planned>, Memory>
    requires { HasOutputsOf graph.now sums.now }
    ensures { IfOk result (λ found. IfSome found (IsNarrowPlan start graph.now.inputs
        (length graph.now.outputs) (settled_outputs graph.now) budget.now)) }
{
    match single_products(alloc, sums)? {
        Some(single) => plan_over(alloc, &single, budget, start, planner),
        None => Ok(None),
    }
}
