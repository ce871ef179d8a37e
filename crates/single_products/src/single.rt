// The graph of single products of a graph of sums.
ghost use Rattle.std.specs.Prelude.{IfOk, IfSome};
ghost use Rattle.sum_graph.specs.Graphs.{IsSumGraph};
ghost use Rattle.single_products.specs.Singles.{IsSingleOrLarge};

use crate::room::room;
use crate::walk::{Parted, listed, part_nodes, part_outputs};
use revc_base::Memory;
use std::alloc::Global;
use sum_graph::SumGraph;

/// The graph with at most one product a node and none in an output: each other product of a node
/// is a node of its own right before it, but for the one that reads the latest node, and each
/// product of an output is one. Equal sums are one node. None exactly where the nodes and products
/// together are more than a graph may have nodes. In time near linear in the terms of the sums.
pub fn single_products(alloc: Global, graph: &SumGraph) -> Result<Option<SumGraph>, Memory>
    ensures single { IfOk result (IsSingleOrLarge graph.now) }
    ensures keeps { IfOk result (λ found. IfSome found IsSumGraph) }
{
    if room(graph).is_none() {
        return Ok(None);
    }
    let Parted { mut nodes, places } = part_nodes(alloc, graph)?;
    let outputs = part_outputs(alloc, &mut nodes, &places, graph)?;
    let nodes = listed(alloc, nodes)?;
    Ok(Some(SumGraph::new(alloc, graph.inputs(), nodes, outputs)?))
}
