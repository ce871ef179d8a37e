// The search for the size of a block.
ghost use Rattle.std.specs.Prelude.{◌≡◌, IfOk, IfErr};
ghost use Rattle.circuit_plans.specs.declared.choice.Plan.TheVariants.{Pebble};
ghost use Rattle.sum_graph.specs.Plain.{plain_of};
ghost use Rattle.circuit_plans.specs.declared.roles.Start.TheVariants.{Any};
ghost use Rattle.plan_choice.specs.Choices.{IsChoiceFault, IsLaidFor, IsPebbling};

use crate::laying::{Tried, is_refused, lay_blocks};
use circuit_plans::Budget;
use claim_check::Settled;
use std::alloc::Global;
use sum_graph::SumGraph;

// The first pebbling plan that fits the budget, of blocks from the least power of two that has all
// nodes down by halves to 1.
pub fn lay_pebbling(alloc: Global, graph: &Settled, plain: &SumGraph, budget: &Budget) -> Tried
    requires { plain.now ≡ plain_of graph.now }
    ensures ok { IfOk result (IsLaidFor Any graph.now budget.now) }
    ensures pebbling { IfOk result (IsPebbling graph.now budget.now) }
    ensures refused { IfErr result (IsChoiceFault Pebble graph.now budget.now) }
{
    let mut block = graph.nodes().next_power_of_two();
    let mut tried = lay_blocks(alloc, graph, plain, block, budget);
    'halving: while block > 1 && is_refused(&tried) {
        block /= 2;
        tried = lay_blocks(alloc, graph, plain, block, budget);
    }
    tried
}
