// Whether a graph may have a node for each node and product of another one.
ghost use Rattle.std.specs.Prelude.{◌≡◌, ◌≤◌, length};
ghost use Rattle.revs_tape.specs.declared.limits.TheConstants.{MOST_WRITES};
ghost use Rattle.sum_graph.specs.Graphs.{products_in};
ghost use Rattle.single_products.specs.Singles.{most_nodes};
ghost use Rattle.single_products.specs.inside.Parting.{IsLeft};

use bit_sums::Sum;
use revs_tape::limits::MOST_WRITES;
use sum_graph::SumGraph;

/// How many nodes are left, and none where they are too many.
pub fn room(graph: &SumGraph) -> Option<usize>
    ensures { IsLeft MOST_WRITES (most_nodes graph.now) result }
{
    let left = MOST_WRITES - graph.nodes() as usize;
    let left = left_by_nodes(graph, left)?;
    left_by_outputs(graph.outputs(), left)
}

fn left_by_nodes(graph: &SumGraph, left: usize) -> Option<usize>
    ensures { IsLeft left (products_in graph.now.nodes) result }
{
    let mut left = left;
    for n in 0..graph.nodes() {
        left = left.checked_sub(graph.node(n).products().len())?;
    }
    Some(left)
}

fn left_by_outputs(sums: &[Sum], left: usize) -> Option<usize>
    ensures { IsLeft left (products_in sums.now) result }
{
    let mut left = left;
    for sum in sums {
        left = left.checked_sub(sum.products().len())?;
    }
    Some(left)
}
