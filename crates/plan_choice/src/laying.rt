// One plan laid: its gates are split on all its lines and the borrowed ones.
ghost use Rattle.std.specs.Prelude.{◌≡◌, ◌+◌, ◌≤◌, IfOk, IfErr};
ghost use Rattle.std.specs.List.{AllByRecursion};
ghost use Rattle.circuit_plans.specs.declared.plan.PlanFault.TheVariants.{Memory};
ghost use Rattle.circuit_plans.specs.Plans.{IsInBudget};
ghost use Rattle.mct_circuit.specs.Gates.{AreNarrow};
ghost use Rattle.circuit_plans.specs.declared.roles.Start.TheVariants.{Any};
ghost use Rattle.plan_choice.specs.Blocks.{IsPebblingFault};
ghost use Rattle.sum_graph.specs.Plain.{plain_of};
ghost use Rattle.eager_cleanup.specs.Eager.{IsEagerFault};
ghost use Rattle.gate_split.specs.Costs.{IsRoomyFlip};
ghost use Rattle.plan_choice.specs.Choices.{IsEager, IsLaidFor};
ghost use Rattle.plan_choice.specs.inside.Tried.{IsLaidAsIs, IsLaidInBlocks, IsLaidOf};
ghost use Rattle.plan_choice.specs.inside.Tried.{IsSplitFault, is_refusal};

use circuit_plans::{Budget, Laid, PlanFault, Planned};
use claim_check::Settled;
use gate_split::{SplitFault, split_owned};
use std::alloc::Global;
use sum_graph::SumGraph;

// A plan that was tried: laid, or refused.
pub type Tried = Result<Laid, PlanFault>;

// The eager plan, laid.
pub fn lay_eager(alloc: Global, graph: &Settled, plain: &SumGraph, budget: &Budget) -> Tried
    requires { plain.now ≡ plain_of graph.now }
    ensures ok { IfOk result (IsLaidFor Any graph.now budget.now) }
    ensures eager { IfOk result (IsEager graph.now budget.now) }
    ensures refused { IfErr result (IsEagerFault graph.now budget.now) }
{
    let planned = eager_cleanup::plan(alloc, graph, plain, budget)?;
    lay(alloc, planned, budget)
}

// The pebbling plan down to blocks of `block` nodes, laid.
pub fn lay_blocks(
    alloc: Global,
    graph: &Settled,
    plain: &SumGraph,
    block: u32,
    budget: &Budget,
) -> Tried
    requires some { 1 ≤ block }
    requires plain { plain.now ≡ plain_of graph.now }
    ensures ok { IfOk result (IsLaidFor Any graph.now budget.now) }
    ensures within { IfOk result (IsLaidInBlocks graph.now block budget.now) }
    ensures refused { IfErr result (IsPebblingFault graph.now block budget.now) }
{
    let planned = bennett_pebbling::plan(alloc, plain, block, budget)?;
    lay_narrow(alloc, planned, budget)
}

// A plan of narrow gates within the budget, laid: its gates stay as they are.
pub fn lay_narrow(alloc: Global, planned: Planned, budget: &Budget) -> Tried
    requires within { IsInBudget budget.now planned }
    requires narrow { AreNarrow planned.circuit.gates }
    ensures ok { IfOk result (IsLaidAsIs planned budget.now) }
    ensures memory { IfErr result (λ fault. fault ≡ Memory _) }
{
    // This call says that the gates are on the circuit's lines.
    let _ = planned.circuit().lines();
    lay(alloc, planned, budget)
}

// Whether there is no plan though memory was not wanting.
pub fn is_refused(tried: &Tried) -> bool
    ensures { result ≡ is_refusal tried.now }
{
    matches!(tried, Err(PlanFault::Lines { .. } | PlanFault::Gates))
}

// The plan with its gates split.
fn lay(alloc: Global, planned: Planned, budget: &Budget) -> Tried
    requires lines { planned.circuit.lines + budget.now.borrow ≤ budget.now.lines }
    requires roomy { AllByRecursion (IsRoomyFlip planned.circuit.lines)
        planned.circuit.gates }
    ensures ok { IfOk result (IsLaidOf planned budget.now) }
    ensures refused { IfErr result (IsSplitFault planned budget.now) }
{
    // This call says that the budget has few lines.
    let _ = budget.lines();
    let lines = planned.circuit().lines() + budget.borrow();
    let (inputs, outputs, work) = (planned.inputs(), planned.outputs(), planned.work());
    match split_owned(alloc, planned.into_circuit(), lines, budget.gates()) {
        Ok(narrow) => Ok(Laid::new(narrow, inputs, outputs, work, budget.borrow())),
        Err(SplitFault::Gates) => Err(PlanFault::Gates),
        Err(SplitFault::Memory(memory)) => Err(PlanFault::Memory(memory)),
        Err(SplitFault::NoIdle { .. }) => unreachable!(),
    }
}
