// How many products there are.
ghost use Rattle.std.specs.Prelude.{◌≡◌, ◌+◌, IfSome};
ghost use Rattle.sum_graph.specs.Graphs.{products_in};

use bit_sums::Sum;
use sum_graph::SumGraph;

/// The products of all nodes and outputs; none where there are too many to be counted.
pub fn products_of(graph: &SumGraph) -> Option<usize>
    ensures { IfSome result (λ count.
        count ≡ products_in graph.now.nodes + products_in graph.now.outputs) }
{
    let nodes = products_of_nodes(graph)?;
    let outputs = products_of_sums(graph.outputs())?;
    nodes.checked_add(outputs)
}

fn products_of_nodes(graph: &SumGraph) -> Option<usize>
    ensures { IfSome result (λ count. count ≡ products_in graph.now.nodes) }
{
    let mut count: usize = 0;
    for node in 0..graph.nodes() {
        count = count.checked_add(graph.node(node).products().len())?;
    }
    Some(count)
}

fn products_of_sums(sums: &[Sum]) -> Option<usize>
    ensures { IfSome result (λ count. count ≡ products_in sums.now) }
{
    let mut count: usize = 0;
    for sum in sums {
        count = count.checked_add(sum.products().len())?;
    }
    Some(count)
}
