// The plans of a lean graph, laid: that of its row, and the best of those that planners find.
ghost use Rattle.std.specs.Prelude.{◌≡◌, ◌⊎◌, ◌+◌, ◌≤◌, length, sum_by, IfErr, IfOk, IfSome, IsTrue, Ok};
ghost use Rattle.circuit_plans.specs.declared.plan.TheConstants.{MOST_GATES};
ghost use Rattle.circuit_plans.specs.Plans.{HasPortLines, IsNarrowPlan};
ghost use Rattle.few_products.specs.Fewer.{IsFewerOf};
ghost use Rattle.plan_choice.specs.inside.Tried.{AreFewBeside, IsLaidLean, IsLeanFault, IsMost};
ghost use Rattle.plan_choice.specs.inside.Tried.{IsRow, IsWithin};
ghost use Rattle.sum_graph.specs.Graphs.{IsLeanOf, first_work, sum_outputs};
ghost use Rattle.sum_toggles.specs.Toggles.{toggle_weight};

use crate::laying::{Tried, lay_narrow};
use crate::planners::{Planner, plan_over};
use crate::singles::plan_single;
use bit_sums::Sum;
use circuit_plans::{Budget, Laid, PlanFault, Planned, Size, Start};
use claim_check::Settled;
use std::alloc::Global;
use sum_graph::SumGraph;
use sum_toggles::weight_within;

// How many bits a sum that is no node of its graph has at most where states are asked.
const STATE_BITS: usize = 1;

// The best plan of a lean graph: that of its row, or one that a planner finds, where the output
// lines may hold what `start` says. States come first, and the other planners leave out what has
// more Toffoli gates.
pub fn lay_lean(
    alloc: Global,
    graph: &Settled,
    lean: &SumGraph,
    fewer: Option<&SumGraph>,
    budget: &Budget,
    start: Start,
) -> Tried
    requires ports { HasPortLines (first_work lean.now) budget.now }
    requires lean { IsLeanOf graph.now lean.now }
    requires fewer { IfSome fewer (λ fewer. IsFewerOf lean.now fewer.now) }
    ensures ok { IfOk result (IsLaidLean start lean.now budget.now) }
    ensures refused { IfErr result (IsLeanFault lean.now budget.now) }
{
    let row = lay_row(alloc, lean, budget);
    let most = most_of(lean, budget, start, &row);
    let states = plan_single(alloc, graph, STATE_BITS, budget, start, Planner::State)?;
    let toffoli = most.toffoli_with(budget, &states);
    let homes = plan_over(alloc, lean, budget, start, Planner::Homes { toffoli })?;
    let best = or_better(alloc, lean, budget, start, most, row, homes);
    let toffoli = least_toffoli(&best, toffoli);
    let spans = plan_over(alloc, lean, budget, start, Planner::Spans { toffoli })?;
    let best = or_better(alloc, lean, budget, start, most, best, spans);
    let best = or_better(alloc, lean, budget, start, most, best, states);
    or_fewer(alloc, lean, fewer, budget, start, most, best)
}

// What was tried, or a better plan of a graph with fewer products, where there is one.
fn or_fewer(
    alloc: Global,
    lean: &SumGraph,
    fewer: Option<&SumGraph>,
    budget: &Budget,
    start: Start,
    most: Most,
    tried: Tried,
) -> Tried
    requires ports { HasPortLines (first_work lean.now) budget.now }
    requires fewer { IfSome fewer (λ fewer. IsFewerOf lean.now fewer.now) }
    requires most { IsMost start lean.now budget.now most }
    requires ok { IfOk tried (IsLaidLean start lean.now budget.now) }
    requires refused { IfErr tried (IsLeanFault lean.now budget.now) }
    ensures ok { IfOk result (IsLaidLean start lean.now budget.now) }
    ensures refused { IfErr result (IsLeanFault lean.now budget.now) }
{
    let Some(fewer) = fewer else {
        return tried;
    };
    let toffoli = least_toffoli(&tried, most.toffoli);
    let homes = plan_over(alloc, fewer, budget, start, Planner::Homes { toffoli })?;
    let best = or_better(alloc, lean, budget, start, most, tried, homes);
    let toffoli = least_toffoli(&best, toffoli);
    let spans = plan_over(alloc, fewer, budget, start, Planner::Spans { toffoli })?;
    or_better(alloc, lean, budget, start, most, best, spans)
}

// ---- the row

// The plan of the row, laid: one block of all nodes, each on a line of its own and toggled twice.
fn lay_row(alloc: Global, lean: &SumGraph, budget: &Budget) -> Tried
    ensures ok { IfOk result (IsRow lean.now budget.now) }
    ensures refused { IfErr result (IsLeanFault lean.now budget.now) }
{
    let block = lean.nodes() + 1;
    let planned = bennett_pebbling::plan(alloc, lean, block, budget)?;
    lay_narrow(alloc, planned, budget)
}

// What plans beside that of the row may have at most.
#[derive(Clone, Copy)]
pub struct Most {
    lines: u32,
    toffoli: u64,
    gates: u64,
}

impl Most {
    // The Toffoli gates that a plan may have to be better than one that was found.
    fn toffoli_with(self, budget: &Budget, found: &Option<Planned>) -> u64 {
        let Some(planned) = found else {
            return self.toffoli;
        };
        let circuit = planned.circuit();
        let lines = circuit.lines().saturating_add(budget.borrow());
        if lines <= self.lines && circuit.len() <= self.gates {
            self.toffoli.min(circuit.counts().ccx)
        } else {
            self.toffoli
        }
    }
}

// The lines of the row, and where its plan was laid, its Toffoli gates and gates as `gates_beside`
// says; nothing where memory was wanting.
fn most_of(lean: &SumGraph, budget: &Budget, start: Start, row: &Tried) -> Most
    requires ok { IfOk row.now (IsRow lean.now budget.now) }
    requires refused { IfErr row.now (IsLeanFault lean.now budget.now) }
    ensures { IsMost start lean.now budget.now result }
{
    let limit = budget.gates();
    let ports = lean.inputs() + lean.outputs().len() as u32;
    let lines = ports + lean.nodes() + budget.borrow();
    match row {
        Ok(laid) => Most {
            lines,
            toffoli: laid.circuit().counts().ccx,
            gates: gates_beside(start, lean, laid, limit),
        },
        Err(PlanFault::Memory(_)) => Most {
            lines,
            toffoli: 0,
            gates: 0,
        },
        Err(PlanFault::Lines { .. } | PlanFault::Gates) => Most {
            lines,
            toffoli: limit,
            gates: limit,
        },
    }
}

// Twice the gates of the row less one toggle of each output, where the output lines may hold any
// bits; the limit where they begin at 0, since sums in place take many CX gates.
fn gates_beside(start: Start, lean: &SumGraph, row: &Laid, limit: u64) -> u64
    requires { limit ≤ MOST_GATES }
    ensures { AreFewBeside start lean.now row.now result }
{
    match start {
        Start::Any => without_outputs(2 * row.circuit().len().min(limit), lean.outputs()),
        Start::Zero => limit,
    }
}

// So many gates less those of one toggle of each output, or none where there are not as many.
fn without_outputs(gates: u64, outputs: &[Sum]) -> u64
    ensures { (result ≡ 0) ⊎ (result + sum_by toggle_weight outputs.now ≤ gates) }
{
    let mut left = gates;
    for sum in outputs {
        let Some(weight) = weight_within(sum, left) else {
            return 0;
        };
        left -= weight;
    }
    left
}

fn is_within(most: Most, laid: &Laid) -> bool
    ensures { IsTrue result → IsWithin most laid.now }
{
    let circuit = laid.circuit();
    circuit.lines() <= most.lines
        && circuit.counts().ccx <= most.toffoli
        && circuit.len() <= most.gates
}

// ---- the better of two plans

// The Toffoli gates of the plan that was tried, where these are less than so many.
fn least_toffoli(tried: &Tried, most: u64) -> u64 {
    match tried {
        Ok(laid) => most.min(laid.circuit().counts().ccx),
        Err(_) => most,
    }
}

// The better of what was tried and of a plan that was found, where this one is within the most.
fn or_better(
    alloc: Global,
    lean: &SumGraph,
    budget: &Budget,
    start: Start,
    most: Most,
    tried: Tried,
    found: Option<Planned>,
) -> Tried
    requires most { IsMost start lean.now budget.now most }
    requires ok { IfOk tried (IsLaidLean start lean.now budget.now) }
    requires refused { IfErr tried (IsLeanFault lean.now budget.now) }
    requires found { IfSome found (IsNarrowPlan start lean.now.inputs (length lean.now.outputs)
        (sum_outputs lean.now) budget.now) }
    ensures ok { IfOk result (IsLaidLean start lean.now budget.now) }
    ensures refused { IfErr result (IsLeanFault lean.now budget.now) }
{
    let Some(planned) = found else {
        return tried;
    };
    let laid = lay_narrow(alloc, planned, budget)?;
    if is_within(most, &laid) {
        better_of(tried, laid)
    } else {
        tried
    }
}

// The plan that was found where it is better than the one that was tried, or that was refused; want
// of memory passes on.
fn better_of(tried: Tried, found: Laid) -> Tried
    ensures { (result ≡ tried) ⊎ (result ≡ Ok found) }
{
    match tried {
        Ok(laid) => Ok(better(laid, found)),
        Err(PlanFault::Memory(memory)) => Err(PlanFault::Memory(memory)),
        Err(_) => Ok(found),
    }
}

fn better(laid: Laid, found: Laid) -> Laid
    ensures { (result ≡ laid) ⊎ (result ≡ found) }
{
    if Size::of(found.circuit()) < Size::of(laid.circuit()) {
        found
    } else {
        laid
    }
}
