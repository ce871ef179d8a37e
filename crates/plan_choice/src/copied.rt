// The copied plan, where the law of depth wants it.
ghost use Rattle.std.specs.Prelude.{◌≡◌, IfErr, IfOk, IsTrue, MatchOption};
ghost use Rattle.circuit_plans.specs.declared.choice.Plan.TheVariants.{Shallow};
ghost use Rattle.circuit_plans.specs.declared.roles.Start.TheVariants.{Any};
ghost use Rattle.circuit_plans.specs.Plans.{HasPortLines};
ghost use Rattle.copied_plans.specs.Plans.{CopiedFits};
ghost use Rattle.eager_cleanup.specs.Eager.{ports_of};
ghost use Rattle.plan_choice.specs.Choices.{IsChoiceFault, IsLaidFor, IsShallow};
ghost use Rattle.plan_choice.specs.inside.Tried.{HasSmallDepth, IsCopied, IsShallowFor};

use crate::laying::{Tried, lay_narrow};
use circuit_plans::{Budget, Laid, PlanFault};
use claim_check::Settled;
use copied_plans::and_depth;
use flip_orders::{Goal, with_best_order};
use revc_base::Memory;
use std::alloc::Global;

// The plan that was tried, or the copied plan where that one is deeper than the law allows and the
// budget has the row of this.
pub fn or_copied(alloc: Global, graph: &Settled, budget: &Budget, tried: Tried) -> Tried
    requires ports { HasPortLines (ports_of graph.now) budget.now }
    requires ok { IfOk tried (IsShallowFor graph.now budget.now) }
    requires refused { IfErr tried (IsChoiceFault Shallow graph.now budget.now) }
    ensures ok { IfOk result (IsLaidFor Any graph.now budget.now) }
    ensures chosen { IfOk result (IsShallow graph.now budget.now) }
    ensures refused { IfErr result (IsChoiceFault Shallow graph.now budget.now) }
{
    let laid = tried?;
    let small = is_small(alloc, graph, &laid)?;
    if small {
        return Ok(laid);
    }
    match lay_copied(alloc, graph, budget)? {
        Some(copied) => Ok(copied),
        None => Ok(laid),
    }
}

// Whether a plan was laid that keeps the law of depth.
pub fn keeps_law(alloc: Global, graph: &Settled, tried: &Tried) -> Result<bool, Memory>
    ensures { IfOk result (λ small. IsTrue small → IfOk tried.now (HasSmallDepth graph.now)) }
{
    match tried {
        Ok(laid) => is_small(alloc, graph, laid),
        Err(_) => Ok(false),
    }
}

// Whether the Toffoli depth is at most twice the AND depth.
fn is_small(alloc: Global, graph: &Settled, laid: &Laid) -> Result<bool, Memory>
    ensures { IfOk result (λ small. IsTrue small → HasSmallDepth graph.now laid.now) }
{
    let depth = laid.circuit().toffoli_depth()?;
    let most = 2 * u64::from(and_depth(alloc, graph)?);
    Ok(depth <= most)
}

// The copied plan, laid, with its gates in the best order.
fn lay_copied(alloc: Global, graph: &Settled, budget: &Budget) -> Result<Option<Laid>, PlanFault>
    ensures ok { IfOk result (λ found. MatchOption found (¬ CopiedFits graph.now budget.now)
        (IsCopied graph.now budget.now)) }
    ensures memory { IfErr result (λ fault. fault ≡ PlanFault.Memory _) }
{
    let Some(planned) = copied_plans::plan(alloc, graph, budget)? else {
        return Ok(None);
    };
    let laid = lay_narrow(alloc, planned, budget)?;
    Ok(Some(with_best_order(alloc, laid, Goal::Toffoli)?))
}
