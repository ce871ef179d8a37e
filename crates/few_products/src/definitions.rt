// The sums that nodes have before anything is done.
ghost use Rattle.std.specs.Prelude.{◌≡◌, true, length, IfOk, IfSome};
ghost use Rattle.bit_sums.specs.Sums.{AreAll, IsProductOver};
ghost use Rattle.std.specs.List.{AllByRecursion};
ghost use Rattle.sum_graph.specs.Graphs.{is_known, IsKnownSum};
ghost use Rattle.few_products.specs.inside.Definitions.{AreBegun, AreDefinitions};

use crate::symbols::sum_of;
use dependency_graph::Base;
use revc_base::Memory;
use std::alloc::Global;
use sum_graph::SumGraph;
use symbol_graphs::SymbolSum;
use wide_sums::{WideProduct, WideSum};

/// The sums of the nodes, of the outputs as nodes behind them, and of more nodes; none where one of
/// these is of later nodes.
pub fn definitions(
    alloc: Global,
    graph: &SumGraph,
    more: &[SymbolSum],
) -> Result<Option<Vec<WideSum>>, Memory>
    ensures { IfOk result (λ found. IfSome found (λ all. AreDefinitions graph.now all.items)) }
{
    let inputs = graph.inputs();
    let mut all = nodes_and_outputs(alloc, graph)?;
    for sum in more {
        let sum = sum_of(alloc, inputs, sum)?;
        if !is_known_sum(inputs, &all, &sum) {
            return Ok(None);
        }
        all.push(sum)?;
    }
    Ok(Some(all))
}

fn nodes_and_outputs(alloc: Global, graph: &SumGraph) -> Result<Vec<WideSum>, Memory>
    ensures { IfOk result (λ all. AreBegun graph.now (length graph.now.outputs) all.items) }
{
    let mut all = nodes_of(alloc, graph)?;
    for sum in graph.outputs() {
        all.push(WideSum::of(alloc, sum)?)?;
    }
    Ok(all)
}

fn nodes_of(alloc: Global, graph: &SumGraph) -> Result<Vec<WideSum>, Memory>
    ensures { IfOk result (λ all. all.items ≡ graph.now.nodes) }
{
    let mut all = Vec::new(alloc);
    for node in 0..graph.nodes() {
        all.push(WideSum::of(alloc, graph.node(node))?)?;
    }
    Ok(all)
}

// ---- whether sums are of earlier nodes

fn is_known_sum(inputs: u32, before: &[WideSum], sum: &WideSum) -> bool
    ensures { result ≡ true → IsKnownSum inputs (length before.now) sum.now }
{
    if !are_known(inputs, before.len(), sum.bits()) {
        return false;
    }
    are_known_products(inputs, before.len(), sum.products())
}

fn are_known_products(inputs: u32, nodes: usize, products: &[WideProduct]) -> bool
    ensures { result ≡ true
        → AllByRecursion (IsProductOver (is_known inputs nodes)) products.now }
{
    for product in products {
        if !is_known_product(inputs, nodes, product) {
            return false;
        }
    }
    true
}

fn is_known_product(inputs: u32, nodes: usize, product: &WideProduct) -> bool
    ensures { result ≡ true → IsProductOver (is_known inputs nodes) product.now }
{
    if !are_known(inputs, nodes, product.first()) {
        return false;
    }
    are_known(inputs, nodes, product.second())
}

fn are_known(inputs: u32, nodes: usize, bits: &[Base]) -> bool
    ensures { result ≡ true → AreAll (is_known inputs nodes) bits.now }
{
    for base in bits {
        if !is_known_base(inputs, nodes, *base) {
            return false;
        }
    }
    true
}

fn is_known_base(inputs: u32, nodes: usize, base: Base) -> bool
    ensures { result ≡ is_known inputs nodes base }
{
    match base {
        Base::Input(input) => input < inputs,
        Base::Node(node) => (node as usize) < nodes,
    }
}
