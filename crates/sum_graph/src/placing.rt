// Where the sums of nodes are placed.
ghost use Rattle.std.specs.Prelude.{◌≡◌, ◌<◌, ◌⊎◌, length, IfOk};
ghost use Rattle.bit_sums.specs.Bits.{AreRising};
ghost use Rattle.sum_graph.specs.Graphs.{IsNodeAt};
ghost use Rattle.sum_graph.specs.inside.Placing.{IsPlaced};
ghost use Rattle.revs_tape.specs.declared.limits.TheConstants.{MOST_WRITES};

use crate::slot::Slot;
use bit_sums::{Factor, GrowingSum, Sum};
use dependency_graph::Base;
use indexmap::IndexSet;
use revc_base::Memory;
use std::alloc::Global;

/// The slot of the sum of a node: where the node is shared, a factor, which stands for a node of
/// the lean graph unless the sum is short, of so many bits at most.
pub fn place(
    alloc: Global,
    nodes: &mut IndexSet<Sum>,
    sum: GrowingSum,
    shared: bool,
    short: usize,
) -> Result<Slot, Memory>
    requires { length nodes.old.keys < MOST_WRITES }
    ensures { IfOk result (IsPlaced shared sum nodes.old.keys nodes.new.keys) }
{
    if !shared {
        return Ok(Slot::Sum(sum));
    }
    let sum = sum.finish()?;
    if sum.bits().len() <= short
        && let Some(factor) = sum.factor()?
    {
        return Ok(Slot::Factor(factor));
    }
    let one = sum.one();
    let node = node_of(nodes, sum.without_one())?;
    Ok(Slot::Factor(Factor::bit(alloc, Base::Node(node), one)?))
}

/// The place of the node that has this sum among some nodes: a new one, behind them, where none has
/// it.
///
/// # Errors
///
/// Want of memory.
pub fn node_of(nodes: &mut IndexSet<Sum>, sum: Sum) -> Result<u32, Memory>
    requires { length nodes.old.keys < MOST_WRITES }
    ensures { IfOk result (IsNodeAt sum nodes.old.keys nodes.new.keys) }
{
    let (place, _) = nodes.insert_full(sum)?;
    Ok(place as u32)
}
