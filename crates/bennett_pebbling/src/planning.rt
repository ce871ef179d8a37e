// The pebbling plan of a graph.
ghost use Rattle.std.specs.Prelude.{IfOk, IfErr, length, ◌≤◌};
ghost use Rattle.bennett_pebbling.specs.Pebbling.{HasFewProducts, HasLineEach, IsPebblingFault};
ghost use Rattle.bennett_pebbling.specs.Pebbling.{IsWithinBlock};
ghost use Rattle.circuit_plans.specs.declared.roles.Start.TheVariants.{Any};
ghost use Rattle.circuit_plans.specs.Plans.{IsNarrowPlan};
ghost use Rattle.sum_graph.specs.Graphs.{sum_outputs};

use crate::changing::{Halving, rise};
use crate::needs::outputs_of;
use circuit_plans::{Budget, PlanFault, Planned};
use held_nodes::Forward;
use std::alloc::Global;
use sum_graph::SumGraph;

/// The plan of a graph by halves, down to blocks of `block` nodes. The forward part holds
/// what the second half of the nodes needs of the first, then the outputs in the second half, and
/// then cleans the first half of what is no output; each half goes in the same way, and a block is
/// computed node by node. The circuit takes each input and zeros to that input, the outputs, and
/// zeros. It has at most a line for each input, output and node. Where one block has all nodes,
/// each node is toggled at most twice.
///
/// # Errors
///
/// `Lines` and `Gates` only where the budget has fewer of them than the numbers of the block, for a
/// block of one node than the fine numbers, and where one block has all nodes than the plain
/// numbers; `Lines` only where it has less than a line for each input, output, node and borrowed
/// bit. `need` is the number of inputs, outputs and borrowed lines where that passes the budget,
/// and one line more than the budget otherwise.
pub fn plan(
    alloc: Global,
    graph: &SumGraph,
    block: u32,
    budget: &Budget,
) -> Result<Planned, PlanFault>
    requires { 1 ≤ block }
    ensures plan { IfOk result (IsNarrowPlan Any graph.now.inputs (length graph.now.outputs)
        (sum_outputs graph.now) budget.now) }
    ensures few { IfOk result (IsWithinBlock graph.now block) }
    ensures lines { IfOk result (HasLineEach graph.now) }
    ensures products { IfOk result (HasFewProducts graph.now block) }
    ensures refused { IfErr result (IsPebblingFault graph.now block budget.now) }
{
    let forward = Forward::new(alloc, graph, budget)?;
    let outputs = outputs_of(alloc, graph)?;
    let by = Halving {
        alloc,
        graph,
        block,
    };
    let forward = rise(by, forward, 0, &outputs)?;
    forward.finish()
}
