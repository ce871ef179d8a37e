// The copied plan.
ghost use Rattle.std.specs.Prelude.{◌≡◌, ◌↔◌, ◌*◌, ◌≤◌, length, IfErr, IfOk, IsTrue, MatchOption};
ghost use Rattle.revs_tape.specs.declared.limits.TheConstants.{MOST_WRITES};
ghost use Rattle.copied_plans.specs.Plans.{CopiedFits, IsCopiedPlan};
ghost use Rattle.copied_plans.specs.inside.Straight.{IsStraightPlan, StraightFits};

use crate::copying::copied_graph;
use circuit_plans::{Budget, PlanFault, Planned};
use claim_check::Settled;
use held_nodes::Forward;
use revc_base::Memory;
use std::alloc::Global;
use sum_graph::SumGraph;

/// The copied plan of a graph: the nodes are toggled once, in their order, each onto a work line of
/// its own, from copies of its operands that no other node reads; then the outputs are copied to
/// their lines, and all else is undone. So the gates of a node wait for those of its operands
/// alone, and the Toffoli depth is at most twice the AND depth. None exactly where the budget does
/// not have the row: a line for each input, output and borrowed bit and three for each node, and
/// eight gates for each node and one for each output. In time linear in the nodes.
pub fn plan(alloc: Global, graph: &Settled, budget: &Budget) -> Result<Option<Planned>, Memory>
    ensures { IfOk result (λ found. MatchOption found (¬ CopiedFits graph.now budget.now)
        (IsCopiedPlan graph.now budget.now)) }
{
    if !fits(graph, budget) {
        return Ok(None);
    }
    let copied = copied_graph(alloc, graph)?;
    Ok(Some(straight_plan(alloc, &copied, budget)?))
}

// Whether the budget has the row.
fn fits(graph: &Settled, budget: &Budget) -> bool
    ensures fits { IsTrue result ↔ CopiedFits graph.now budget.now }
    ensures few { IsTrue result → 3 * length graph.now.nodes ≤ MOST_WRITES }
{
    let nodes = graph.nodes();
    let outputs = graph.outputs().len() as u32;
    let lines = graph.inputs() + outputs + 3 * nodes + budget.borrow();
    let gates = 8 * u64::from(nodes) + u64::from(outputs);
    lines <= budget.lines() && gates <= budget.gates()
}

// The straight plan of a graph of sums, for which the budget has room.
fn straight_plan(alloc: Global, graph: &SumGraph, budget: &Budget) -> Result<Planned, Memory>
    requires { StraightFits graph.now budget.now }
    ensures { IfOk result (IsStraightPlan graph.now budget.now) }
{
    match all_toggled(alloc, graph, budget) {
        Ok(planned) => Ok(planned),
        Err(PlanFault::Memory(memory)) => Err(memory),
        Err(PlanFault::Lines { .. } | PlanFault::Gates) => unreachable!(),
    }
}

// All nodes toggled, in their order, and the plan of this forward part.
fn all_toggled(alloc: Global, graph: &SumGraph, budget: &Budget) -> Result<Planned, PlanFault>
    requires { StraightFits graph.now budget.now }
    ensures ok { IfOk result (IsStraightPlan graph.now budget.now) }
    ensures memory { IfErr result (λ fault. fault ≡ PlanFault.Memory _) }
{
    let mut forward = Forward::new(alloc, graph, budget)?;
    for node in 0..graph.nodes() {
        forward = forward.toggle(node)?;
    }
    forward.finish()
}
