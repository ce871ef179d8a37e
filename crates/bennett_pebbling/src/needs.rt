// Marks of the nodes of a range: those that are needed behind it, those that differ, and those on
// which they rest. The mark at place k is that of node lo + k.
ghost use Rattle.std.specs.Prelude.{◌≡◌, ◌+◌, ◌≤◌, false, true, length, replicate, IfOk};
ghost use Rattle.std.specs.List.{flat_map};
ghost use Rattle.bit_sums.specs.Sums.{bases_of, product_bases};
ghost use Rattle.dependency_graph.specs.Graphs.{nodes_among, node_of};
ghost use Rattle.sum_graph.specs.Graphs.{IsSumGraph};
ghost use Rattle.held_nodes.specs.Held.{IsForward};
ghost use Rattle.bennett_pebbling.specs.inside.Marks.{AreDifferences, AreHeld, AreNeeded};
ghost use Rattle.bennett_pebbling.specs.inside.Marks.{AreNeeds, HasMarked, differ};

use bit_sums::{Product, Sum};
use dependency_graph::Base;
use held_nodes::Forward;
use revc_base::Memory;
use std::alloc::Global;
use sum_graph::SumGraph;

// Marks the wanted nodes, and those that are in the cut at the end of the range.
pub fn with_cut(
    alloc: Global,
    graph: &SumGraph,
    lo: u32,
    wanted: &[bool],
) -> Result<Vec<bool>, Memory>
    requires keeps { IsSumGraph graph.now }
    requires inside { lo + length wanted.now ≤ length graph.now.nodes }
    ensures { IfOk result (λ marks. AreNeeded graph.now lo wanted.now marks.items) }
{
    let end = lo + wanted.len() as u32;
    let mut marks = Vec::with_capacity(alloc, wanted.len())?;
    for (k, want) in wanted.iter().enumerate() {
        let needed = graph.last_use(lo + k as u32) >= end;
        marks.push(*want || needed)?;
    }
    Ok(marks)
}

// Marks the outputs: the nodes that are needed behind the last one.
pub fn outputs_of(alloc: Global, graph: &SumGraph) -> Result<Vec<bool>, Memory>
    ensures { IfOk result (λ marks.
        AreNeeded graph.now 0 (replicate (length graph.now.nodes) false) marks.items) }
{
    let none = vec![in alloc; false; graph.nodes() as usize]?;
    with_cut(alloc, graph, 0, &none)
}

// Whether exactly the wanted nodes of a range are held.
pub fn is_held_so(forward: &Forward<'_>, lo: u32, wanted: &[bool]) -> bool
    requires keeps { IsForward forward.now }
    requires inside { lo + length wanted.now ≤ length forward.now.graph.nodes }
    ensures held { result ≡ true → AreHeld forward.now.lines lo wanted.now }
    ensures differ { result ≡ false → ¬ AreHeld forward.now.lines lo wanted.now }
{
    for (k, want) in wanted.iter().enumerate() {
        if differ(forward.held(lo + k as u32), *want) {
            return false;
        }
    }
    true
}

// Marks the nodes that are held and not wanted, or wanted and not held.
pub fn differing(
    alloc: Global,
    forward: &Forward<'_>,
    lo: u32,
    wanted: &[bool],
) -> Result<Vec<bool>, Memory>
    requires keeps { IsForward forward.now }
    requires inside { lo + length wanted.now ≤ length forward.now.graph.nodes }
    ensures { IfOk result (λ marks. AreDifferences forward.now.lines lo wanted.now marks.items) }
{
    let mut marks = Vec::with_capacity(alloc, wanted.len())?;
    for (k, want) in wanted.iter().enumerate() {
        marks.push(differ(forward.held(lo + k as u32), *want))?;
    }
    Ok(marks)
}

fn differ(held: bool, wanted: bool) -> bool
    ensures { result ≡ differ held wanted }
{
    held != wanted
}

// Marks a base, where it is a node of the range.
fn mark(marks: &mut [bool], lo: u32, base: Base)
    ensures { HasMarked lo (node_of base) marks.old marks.new }
{
    let Base::Node(j) = base else {
        return;
    };
    if j < lo {
        return;
    }
    let k = (j - lo) as usize;
    if k < marks.len() {
        marks[k] = true;
    }
}

fn mark_all(marks: &mut [bool], lo: u32, bases: &[Base])
    ensures { HasMarked lo (nodes_among bases.now) marks.old marks.new }
{
    for base in bases {
        mark(marks, lo, *base);
    }
}

fn mark_operands(marks: &mut [bool], lo: u32, node: &Sum)
    ensures { HasMarked lo (nodes_among (bases_of node.now)) marks.old marks.new }
{
    mark_all(marks, lo, node.bits());
    mark_products(marks, lo, node.products());
}

fn mark_products(marks: &mut [bool], lo: u32, products: &[Product])
    ensures { HasMarked lo (nodes_among (flat_map product_bases products.now)) marks.old marks.new }
{
    for product in products {
        mark_all(marks, lo, product.first());
        mark_all(marks, lo, product.second());
    }
}

// These marks, and those of all nodes of the range on which marked ones rest.
pub fn with_needs(mut marks: Vec<bool>, graph: &SumGraph, lo: u32) -> Vec<bool>
    requires keeps { IsSumGraph graph.now }
    requires inside { lo + length marks.items ≤ length graph.now.nodes }
    ensures { AreNeeds graph.now lo marks.items result.items }
{
    mark_needs(&mut marks, graph, lo);
    marks
}

// By falling nodes, so that each is marked before it is looked at.
fn mark_needs(marks: &mut [bool], graph: &SumGraph, lo: u32)
    requires keeps { IsSumGraph graph.now }
    requires inside { lo + length marks.old ≤ length graph.now.nodes }
    ensures { AreNeeds graph.now lo marks.old marks.new }
{
    for k in (0..marks.len()).rev() {
        if marks[k] {
            mark_operands(marks, lo, graph.node(lo + k as u32));
        }
    }
}
