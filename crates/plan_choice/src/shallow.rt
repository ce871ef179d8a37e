// Plans of small Toffoli depth.
ghost use Rattle.std.specs.Prelude.{◌≡◌, ◌⊎◌, length, IfErr, IfOk, IfSome, Some};
ghost use Rattle.circuit_plans.specs.declared.choice.Plan.TheVariants.{Shallow};
ghost use Rattle.circuit_plans.specs.declared.roles.Start.TheVariants.{Any};
ghost use Rattle.circuit_plans.specs.Plans.{HasPortLines, IsNarrowPlan};
ghost use Rattle.claim_check.specs.Settled.{settled_outputs};
ghost use Rattle.eager_cleanup.specs.Eager.{ports_of};
ghost use Rattle.flip_orders.specs.Orders.{IsReorderedPlan};
ghost use Rattle.plan_choice.specs.Choices.{IsChoiceFault};
ghost use Rattle.plan_choice.specs.inside.Tried.{HasOutputsOf, IsShallowFor};

use crate::laying::{Tried, lay_narrow};
use crate::planners::Planner;
use crate::singles::{plan_single, plan_single_of};
use bit_sums::MOST_FACTOR_BITS;
use circuit_plans::{Budget, Laid, PlanFault, Planned, Start};
use claim_check::Settled;
use flip_orders::{Goal, with_best_order};
use mct_circuit::Circuit;
use revc_base::Memory;
use std::alloc::Global;
use sum_graph::SumGraph;

// How many bits a sum that is no node of its graph has at most where layers are asked first.
const SHORT_BITS: usize = 2;

// The plan that was tried, with its gates in the best order, or one of small Toffoli depth that a
// planner finds over the lean graph or the one with fewer products, where that is better by depth
// or no plan was laid.
pub fn or_shallower(
    alloc: Global,
    graph: &Settled,
    fewer: Option<&SumGraph>,
    budget: &Budget,
    tried: Tried,
) -> Tried
    requires ports { HasPortLines (ports_of graph.now) budget.now }
    requires fewer { IfSome fewer (λ fewer. HasOutputsOf graph.now fewer.now) }
    requires ok { IfOk tried (IsShallowFor graph.now budget.now) }
    requires refused { IfErr tried (IsChoiceFault Shallow graph.now budget.now) }
    ensures ok { IfOk result (IsShallowFor graph.now budget.now) }
    ensures refused { IfErr result (IsChoiceFault Shallow graph.now budget.now) }
{
    let planned = plan_single(
        alloc,
        graph,
        SHORT_BITS,
        budget,
        Start::Any,
        Planner::Layers,
    )?;
    let best = or_laid(alloc, graph, budget, tried, planned);
    let Some(fewer) = fewer else {
        return best;
    };
    let planned = plan_single_of(alloc, graph, fewer, budget, Start::Any, Planner::Layers)?;
    or_laid(alloc, graph, budget, best, planned)
}

// The plan that was tried, or one that the planner finds over a graph of longer sums, which takes
// fewer lines, where that is better by depth or no plan was laid.
pub fn or_of_longer_sums(alloc: Global, graph: &Settled, budget: &Budget, tried: Tried) -> Tried
    requires ports { HasPortLines (ports_of graph.now) budget.now }
    requires ok { IfOk tried (IsShallowFor graph.now budget.now) }
    requires refused { IfErr tried (IsChoiceFault Shallow graph.now budget.now) }
    ensures ok { IfOk result (IsShallowFor graph.now budget.now) }
    ensures refused { IfErr result (IsChoiceFault Shallow graph.now budget.now) }
{
    let (bits, layers) = (MOST_FACTOR_BITS, Planner::Layers);
    let planned = plan_single(alloc, graph, bits, budget, Start::Any, layers)?;
    or_laid(alloc, graph, budget, tried, planned)
}

// The plan that was tried, with its gates in the best order, or the one that was found, laid, where
// that is better by depth or no plan was laid.
fn or_laid(
    alloc: Global,
    graph: &Settled,
    budget: &Budget,
    tried: Tried,
    planned: Option<Planned>,
) -> Tried
    requires ports { HasPortLines (ports_of graph.now) budget.now }
    requires ok { IfOk tried (IsShallowFor graph.now budget.now) }
    requires refused { IfErr tried (IsChoiceFault Shallow graph.now budget.now) }
    requires planned { IfSome planned (IsNarrowPlan Any graph.now.inputs
        (length graph.now.outputs) (settled_outputs graph.now) budget.now) }
    ensures ok { IfOk result (IsShallowFor graph.now budget.now) }
    ensures refused { IfErr result (IsChoiceFault Shallow graph.now budget.now) }
{
    let found = lay_found(alloc, graph, budget, planned)?;
    match tried {
        Ok(laid) => Ok(shallower_of(alloc, laid, found)?),
        Err(PlanFault::Memory(memory)) => Err(PlanFault::Memory(memory)),
        Err(fault) => found.ok_or(fault),
    }
}

// The plan that was found, laid, with its gates in the best order.
fn lay_found(
    alloc: Global,
    graph: &Settled,
    budget: &Budget,
    planned: Option<Planned>,
) -> Result<Option<Laid>, PlanFault>
    requires { IfSome planned (IsNarrowPlan Any graph.now.inputs
        (length graph.now.outputs) (settled_outputs graph.now) budget.now) }
    ensures ok { IfOk result (λ found. IfSome found (IsShallowFor graph.now budget.now)) }
    ensures memory { IfErr result (λ fault. fault ≡ PlanFault.Memory _) }
{
    let Some(planned) = planned else {
        return Ok(None);
    };
    let laid = lay_narrow(alloc, planned, budget)?;
    Ok(Some(with_best_order(alloc, laid, Goal::Toffoli)?))
}

// ---- the better of two plans

// The plan with its gates in the best order, or the one that was found where that is better.
fn shallower_of(alloc: Global, laid: Laid, found: Option<Laid>) -> Result<Laid, Memory>
    ensures { IfOk result (λ best. IsReorderedPlan laid best ⊎ (found ≡ Some best)) }
{
    let laid = with_best_order(alloc, laid, Goal::Toffoli)?;
    let Some(found) = found else {
        return Ok(laid);
    };
    let is_better = DepthSize::of(found.circuit())? < DepthSize::of(laid.circuit())?;
    Ok(if is_better { found } else { laid })
}

// What plans are compared by where depth counts: of two the better one has the lesser Toffoli
// depth; of the same depth, fewer Toffoli gates; of as many, fewer lines.
#[derive(Clone, Copy, PartialEq, Eq, PartialOrd, Ord)]
struct DepthSize {
    toffoli_depth: u64,
    toffoli: u64,
    lines: u32,
}

impl DepthSize {
    fn of(circuit: &Circuit) -> Result<DepthSize, Memory> {
        Ok(DepthSize {
            toffoli_depth: circuit.toffoli_depth()?,
            toffoli: circuit.counts().ccx,
            lines: circuit.lines(),
        })
    }
}
