// The nodes and outputs of a graph, whose products become nodes.
ghost use Rattle.std.specs.Prelude.{◌≡◌, ◌≤◌, length, IfOk};
ghost use Rattle.revs_tape.specs.declared.limits.TheConstants.{MOST_WRITES};
ghost use Rattle.single_products.specs.Singles.{most_nodes};
ghost use Rattle.single_products.specs.inside.Parting.{AreNodesParted, AreOutputsParted};

use crate::parting::{part_node, part_output};
use bit_sums::Sum;
use indexmap::IndexSet;
use revc_base::Memory;
use std::alloc::Global;
use sum_graph::SumGraph;

/// New nodes, and at which of them each node of a graph stands.
#[derive(Drop)]
pub struct Parted {
    pub nodes: IndexSet<Sum>,
    pub places: Vec<u32>,
}

/// All nodes of a graph, in their order.
pub fn part_nodes(alloc: Global, graph: &SumGraph) -> Result<Parted, Memory>
    requires { most_nodes graph.now ≤ MOST_WRITES }
    ensures { IfOk result (λ parted. AreNodesParted graph.now (length graph.now.nodes)
        parted.places.items parted.nodes.keys) }
{
    let mut nodes = IndexSet::new(alloc);
    let mut places = Vec::with_capacity(alloc, graph.nodes() as usize)?;
    for n in 0..graph.nodes() {
        let place = part_node(alloc, &mut nodes, &places, graph.node(n))?;
        places.push(place)?;
    }
    Ok(Parted { nodes, places })
}

/// The outputs of a graph, behind its nodes.
pub fn part_outputs(
    alloc: Global,
    nodes: &mut IndexSet<Sum>,
    places: &[u32],
    graph: &SumGraph,
) -> Result<Vec<Sum>, Memory>
    requires room { most_nodes graph.now ≤ MOST_WRITES }
    requires parted { AreNodesParted graph.now (length graph.now.nodes) places.now
        nodes.old.keys }
    ensures { IfOk result (λ sums. AreOutputsParted graph.now (length graph.now.outputs)
        places.now nodes.new.keys sums.items) }
{
    let mut sums = Vec::with_capacity(alloc, graph.outputs().len())?;
    for sum in graph.outputs() {
        let output = part_output(alloc, nodes, places, sum)?;
        sums.push(output)?;
    }
    Ok(sums)
}

/// Nodes in their order.
pub fn listed(alloc: Global, nodes: IndexSet<Sum>) -> Result<Vec<Sum>, Memory>
    ensures { IfOk result (λ list. list.items ≡ nodes.keys) }
{
    let list: Vec<Sum> = nodes.into_iter().collect(alloc)?;
    Ok(list)
}
