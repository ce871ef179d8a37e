// The first plan that fits.
ghost use Rattle.std.specs.Prelude.{◌≡◌, ◌+◌, ◌≤◌, IfOk, IfErr};
ghost use Rattle.eager_cleanup.specs.Eager.{ports_of};
ghost use Rattle.sum_graph.specs.Plain.{plain_of};
ghost use Rattle.plan_choice.specs.Choices.{IsChoiceFault, IsChosen, IsLaidFor, IsOfLean, IsShallow};
ghost use Rattle.circuit_plans.specs.declared.choice.Plan.TheVariants.{Auto, Compact, Lean, Shallow};
ghost use Rattle.circuit_plans.specs.declared.roles.Start.TheVariants.{Any};
ghost use Rattle.circuit_plans.specs.Plans.{HasPortLines, start_of};

use crate::copied::{keeps_law, or_copied};
use crate::fewer::worth_a_search;
use crate::laying::{Tried, is_refused, lay_eager};
use crate::lean::lay_lean;
use crate::search::lay_pebbling;
use crate::shallow::{or_of_longer_sums, or_shallower};
use bit_sums::MOST_FACTOR_BITS;
use circuit_plans::{Budget, Laid, Plan, PlanFault, Start};
use claim_check::Settled;
use few_products::few_products;
use std::alloc::Global;
use sum_graph::SumGraph;

/// The first plan that fits the budget, with its gates split on all its lines and the borrowed
/// ones. The circuit adds the outputs to whatever the output lines hold, and takes each input,
/// zeros on the work lines and anything on the borrowed lines to the same. An eager plan is within
/// the eager numbers, a pebbling within those of its block; it is that of the largest block that
/// fits, and `Auto` takes one only where the eager numbers do not fit. `Lean` and `Compact`, under
/// which the output lines start at 0, take the best plan of the lean graph: that of its row, or one
/// that a planner finds, on at most a line for each input, output, node and borrowed bit. Where the
/// lean row fits, it has at most two Toffoli gates for each AND of the graph, one for each that
/// goes to one output alone, and at most twice the gates of the row. `Shallow` takes the plan of
/// `Lean`, or one that a planner finds where that is better by its Toffoli depth; where the shallow
/// row fits, that depth is at most twice the AND depth of the graph.
///
/// # Errors
///
/// The refusal of the last plan that was tried, under `Lean`, `Compact` and `Shallow` that of the
/// row; want of memory ends the search. Never where both numbers of a row that `plan` allows fit.
/// `Lines` and `Gates` come only where the budget has fewer of them than the fine number of the
/// graph, for `Eager` than its eager number; for `Lean`, `Compact` and `Shallow`, `Lines` only
/// where it does not have a line for each node, and `Gates` only where the row does not fit, be it
/// in lines or in gates. `need` is the number of inputs, outputs and borrowed lines where that
/// passes the budget, and one line more than the budget otherwise.
pub fn choose(
    alloc: Global,
    graph: &Settled,
    budget: &Budget,
    plan: Plan,
) -> Result<Laid, PlanFault>
    ensures ok { IfOk result (IsLaidFor (start_of plan) graph.now budget.now) }
    ensures chosen { IfOk result (IsChosen plan graph.now budget.now) }
    ensures refused { IfErr result (IsChoiceFault plan graph.now budget.now) }
{
    let need = graph.inputs() + graph.outputs().len() as u32 + budget.borrow();
    if need > budget.lines() {
        return Err(PlanFault::Lines { need });
    }
    chosen(alloc, graph, budget, plan)
}

// The first plan that fits the budget, where it has a line for each input, output and borrowed bit.
fn chosen(alloc: Global, graph: &Settled, budget: &Budget, plan: Plan) -> Tried
    requires { ports_of graph.now + budget.now.borrow ≤ budget.now.lines }
    ensures ok { IfOk result (IsLaidFor (start_of plan) graph.now budget.now) }
    ensures chosen { IfOk result (IsChosen plan graph.now budget.now) }
    ensures refused { IfErr result (IsChoiceFault plan graph.now budget.now) }
{
    match plan {
        Plan::Auto => eager_or_pebbling(alloc, graph, &SumGraph::plain(alloc, graph)?, budget),
        Plan::Compact => lean_plan(alloc, graph, budget, Start::Zero),
        Plan::Eager => lay_eager(alloc, graph, &SumGraph::plain(alloc, graph)?, budget),
        Plan::Lean => lean_plan(alloc, graph, budget, Start::Any),
        Plan::Pebble => lay_pebbling(alloc, graph, &SumGraph::plain(alloc, graph)?, budget),
        Plan::Shallow => shallow_plan(alloc, graph, budget),
    }
}

// The eager plan where it fits, else the first pebbling that does, over the plain graph.
fn eager_or_pebbling(alloc: Global, graph: &Settled, plain: &SumGraph, budget: &Budget) -> Tried
    requires { plain.now ≡ plain_of graph.now }
    ensures ok { IfOk result (IsLaidFor Any graph.now budget.now) }
    ensures chosen { IfOk result (IsChosen Auto graph.now budget.now) }
    ensures refused { IfErr result (IsChoiceFault Auto graph.now budget.now) }
{
    let tried = lay_eager(alloc, graph, plain, budget);
    if is_refused(&tried) {
        lay_pebbling(alloc, graph, plain, budget)
    } else {
        tried
    }
}

// The best plan of the lean graph.
fn lean_plan(alloc: Global, graph: &Settled, budget: &Budget, start: Start) -> Tried
    requires { HasPortLines (ports_of graph.now) budget.now }
    ensures ok { IfOk result (IsLaidFor start graph.now budget.now) }
    ensures chosen { IfOk result (IsOfLean start graph.now budget.now) }
    ensures refused { IfErr result (IsChoiceFault Lean graph.now budget.now) }
    ensures refused_too { IfErr result (IsChoiceFault Compact graph.now budget.now) }
{
    let lean = SumGraph::lean(alloc, graph, MOST_FACTOR_BITS)?;
    let fewer = few_products(alloc, &lean)?;
    lay_lean(alloc, graph, &lean, fewer.as_ref(), budget, start)
}

// The best plan of the lean graph for any bits on the output lines, or a shallower one. Where too
// few lines kept its depth above twice the AND depth, one of longer sums or the copied plan, where
// the law of depth wants it.
fn shallow_plan(alloc: Global, graph: &Settled, budget: &Budget) -> Tried
    requires { HasPortLines (ports_of graph.now) budget.now }
    ensures ok { IfOk result (IsLaidFor Any graph.now budget.now) }
    ensures chosen { IfOk result (IsShallow graph.now budget.now) }
    ensures refused { IfErr result (IsChoiceFault Shallow graph.now budget.now) }
{
    let lean = SumGraph::lean(alloc, graph, MOST_FACTOR_BITS)?;
    let fewer = few_products(alloc, &lean)?;
    let tried = lay_lean(alloc, graph, &lean, fewer.as_ref(), budget, Start::Any);
    let fewer = worth_a_search(&lean, fewer.as_ref());
    let tried = or_shallower(alloc, graph, fewer, budget, tried);
    let small = keeps_law(alloc, graph, &tried)?;
    if small {
        return tried;
    }
    let tried = or_of_longer_sums(alloc, graph, budget, tried);
    or_copied(alloc, graph, budget, tried)
}
