// Graphs of sums with fewer products.
ghost use Rattle.std.specs.Prelude.{◌≡◌, ◌+◌, ◌<◌, true, IfOk, IfSome};
ghost use Rattle.sum_graph.specs.Graphs.{IsSumGraph, products_in};
ghost use Rattle.few_products.specs.Fewer.{IsFewerOf};
ghost use Rattle.few_products.specs.inside.Rewriting.{AreRewritten, IsRewritten};

use crate::counting::products_of;
use crate::definitions::definitions;
use crate::order::{Defined, order_of};
use crate::replay::replay;
use crate::symbols::sums_of;
use crate::writing::{nodes_in_order, outputs_from};
use plan_tools::Stop;
use product_windows::propose;
use revc_base::Memory;
use std::alloc::Global;
use sum_graph::SumGraph;
use symbol_graphs::Proposal;
use wide_sums::WideSum;

/// A graph of sums with the values of this one and with fewer products, so far as a search finds
/// one: sums are rewritten over at most sixteen sums of bits. The work of the search is bounded, by
/// 100 million units and 4,000 a product.
///
/// # Errors
///
/// Want of memory.
pub fn few_products(alloc: Global, graph: &SumGraph) -> Result<Option<SumGraph>, Memory>
    ensures fewer { IfOk result (λ found. IfSome found (IsFewerOf graph.now)) }
    ensures keeps { IfOk result (λ found. IfSome found IsSumGraph) }
{
    let Some(found) = proposed(alloc, graph)? else {
        return Ok(None);
    };
    if has_fewer(graph, &found) {
        Ok(Some(found))
    } else {
        Ok(None)
    }
}

// The graph that is proposed.
fn proposed(alloc: Global, graph: &SumGraph) -> Result<Option<SumGraph>, Memory>
    ensures { IfOk result (λ found. IfSome found (IsRewritten graph.now)) }
{
    match propose(alloc, &sums_of(alloc, graph)?) {
        Ok(proposal) => rewritten(alloc, graph, &proposal),
        Err(Stop::GaveUp) => Ok(None),
        Err(Stop::Memory(memory)) => Err(memory),
    }
}

// The graph once the steps of a proposal are done.
fn rewritten(
    alloc: Global,
    graph: &SumGraph,
    proposal: &Proposal,
) -> Result<Option<SumGraph>, Memory>
    ensures { IfOk result (λ found. IfSome found (IsRewritten graph.now)) }
{
    let Some(mut all) = definitions(alloc, graph, &proposal.more)? else {
        return Ok(None);
    };
    replay(alloc, &mut all, graph.inputs(), &proposal.steps)?;
    written(alloc, graph, &all, &proposal.keys)
}

// The graph whose nodes and outputs have these sums.
fn written(
    alloc: Global,
    graph: &SumGraph,
    all: &[WideSum],
    keys: &[u32],
) -> Result<Option<SumGraph>, Memory>
    requires { AreRewritten graph.now all.now }
    ensures { IfOk result (λ found. IfSome found (IsRewritten graph.now)) }
{
    let inputs = graph.inputs();
    let (first, count) = (graph.nodes(), graph.outputs().len() as u32);
    if count == 0 {
        return Ok(None);
    }
    let defined = Defined {
        definitions: all,
        keys,
        first,
        count,
    };
    let order = match order_of(alloc, defined) {
        Ok(order) => order,
        Err(Stop::GaveUp) => return Ok(None),
        Err(Stop::Memory(memory)) => return Err(memory),
    };
    let Some(written) = nodes_in_order(alloc, inputs, all, &order)? else {
        return Ok(None);
    };
    let Some(outputs) = outputs_from(alloc, all, written, first, count)? else {
        return Ok(None);
    };
    let made = SumGraph::new(alloc, inputs, outputs.nodes, outputs.sums)?;
    Ok(Some(made))
}

// Whether another graph has fewer products.
fn has_fewer(graph: &SumGraph, other: &SumGraph) -> bool
    ensures { result ≡ true → products_in other.now.nodes + products_in other.now.outputs
        < products_in graph.now.nodes + products_in graph.now.outputs }
{
    match (products_of(graph), products_of(other)) {
        (Some(before), Some(now)) => now < before,
        _ => false,
    }
}
