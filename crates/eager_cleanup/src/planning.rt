// The eager plan of a settled graph.
ghost use Rattle.std.specs.Prelude.{◌≡◌, ◌<◌, [], length, IfOk, IfErr};
ghost use Rattle.std.specs.List.{AllByRecursion};
ghost use Rattle.claim_check.specs.Settled.{settled_outputs};
ghost use Rattle.eager_cleanup.specs.Eager.{IsEagerFault, IsWithinEager};
ghost use Rattle.eager_cleanup.specs.inside.Sweeps.{IsSwept};
ghost use Rattle.gate_split.specs.Costs.{IsRoomyFlip};
ghost use Rattle.circuit_plans.specs.Plans.{AddsOutputs};
ghost use Rattle.circuit_plans.specs.declared.roles.Start.TheVariants.{Any};
ghost use Rattle.circuit_plans.specs.Plans.{roles_of_plan};
ghost use Rattle.sum_graph.specs.Plain.{plain_of};
ghost use Rattle.circuit_plans.specs.Plans.{HasPorts, IsInBudget};

use crate::cleaning::{Cleaning, clean_operands};
use crate::known::{add_value, input_values};
use circuit_plans::{Budget, PlanFault, Planned};
use claim_check::Settled;
use exclusive_sums::Poly;
use held_nodes::{Forward, Moved};
use std::alloc::Global;
use sum_graph::SumGraph;

/// The eager plan of a settled graph, whose plain graph of sums is given. Its forward part takes
/// the nodes in order. Each is computed onto the least free work line; then each node that was used
/// for the last time is cleaned, the later one first: by its operands where they are inputs or
/// still stand on work lines, else by the merged cubes of its polynomial where that has at most 64
/// monomials, and else at the end. The circuit adds the outputs to whatever the output lines hold,
/// and takes each input, and zeros on the work lines, to the same.
///
/// # Errors
///
/// `Lines` and `Gates` only where the budget has fewer of them than the eager number of the graph.
/// `need` is the number of inputs, outputs and borrowed lines where that passes the budget, and one
/// line more than the budget otherwise.
pub fn plan(
    alloc: Global,
    graph: &Settled,
    plain: &SumGraph,
    budget: &Budget,
) -> Result<Planned, PlanFault>
    requires { plain.now ≡ plain_of graph.now }
    ensures ports { IfOk result (HasPorts graph.now.inputs (length graph.now.outputs)) }
    ensures clean { IfOk result (λ planned. AddsOutputs Any (roles_of_plan planned)
        planned.circuit.gates (settled_outputs graph.now)) }
    ensures within { IfOk result (IsInBudget budget.now) }
    ensures roomy { IfOk result (λ planned.
        AllByRecursion (IsRoomyFlip planned.circuit.lines) planned.circuit.gates) }
    ensures few { IfOk result (IsWithinEager graph.now) }
    ensures refused { IfErr result (IsEagerFault graph.now budget.now) }
{
    let _ = graph.inputs();
    let forward = Forward::new(alloc, plain, budget)?;
    let forward = swept(alloc, forward, graph)?;
    forward.finish()
}

// Takes the nodes in order: each is computed, and those that it uses for the last time are cleaned.
// Its value is worked out behind its gates, and kept up to its last use.
fn swept<'s>(alloc: Global, mut forward: Forward<'s>, graph: &Settled) -> Moved<'s>
    requires begun { IsSwept graph.now forward.budget 0 [] forward }
    ensures swept { IfOk result (IsSwept graph.now forward.entry.budget
        (length graph.now.nodes) []) }
    ensures refused { IfErr result (IsEagerFault graph.now forward.entry.budget) }
{
    let inputs = input_values(alloc, graph.inputs())?;
    let mut known = Vec::new(alloc);
    for node in 0..graph.nodes() {
        let toggled = forward.toggle(node)?;
        let by = Cleaning {
            alloc,
            graph,
            known: &known,
            user: node,
        };
        forward = clean_operands(by, toggled)?;
        add_value(&mut known, &inputs, graph, node)?;
    }
    Ok(forward)
}
