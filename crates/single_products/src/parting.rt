// Sums whose products become nodes.
ghost use Rattle.std.specs.Prelude.{◌≡◌, ◌+◌, ◌<◌, ◌≤◌, length, IfOk};
ghost use Rattle.bit_sums.specs.Sums.{IsProductOver, IsSumOver};
ghost use Rattle.revs_tape.specs.declared.limits.TheConstants.{MOST_WRITES};
ghost use Rattle.single_products.specs.inside.Parting.{IsNodeRebuilt, IsOutputRebuilt, IsPart};
ghost use Rattle.single_products.specs.inside.Parting.{IsRebuiltBut};
ghost use Rattle.single_products.specs.inside.Renumbering.{has_place};

use crate::renumbering::{renumbered_bits, renumbered_product};
use bit_sums::{GrowingSum, Product, Sum};
use dependency_graph::Base;
use indexmap::IndexSet;
use revc_base::Memory;
use std::alloc::Global;
use sum_graph::node_of;

/// The place of the node of a sum, behind those of its products but of the one that reads the
/// latest node.
pub fn part_node(
    alloc: Global,
    nodes: &mut IndexSet<Sum>,
    places: &[u32],
    sum: &Sum,
) -> Result<u32, Memory>
    requires places { IsSumOver (has_place places.now) sum.now }
    requires room { length nodes.old.keys + length sum.now.products < MOST_WRITES }
    ensures { IfOk result (IsNodeRebuilt places.now sum.now nodes.old.keys nodes.new.keys) }
{
    let kept = latest(sum.products());
    let grown = rebuilt(alloc, nodes, places, sum, kept)?;
    let whole = grown.finish()?;
    node_of(nodes, whole)
}

/// An output, behind the nodes of its products.
pub fn part_output(
    alloc: Global,
    nodes: &mut IndexSet<Sum>,
    places: &[u32],
    sum: &Sum,
) -> Result<Sum, Memory>
    requires places { IsSumOver (has_place places.now) sum.now }
    requires room { length nodes.old.keys + length sum.now.products ≤ MOST_WRITES }
    ensures { IfOk result (IsOutputRebuilt places.now sum.now nodes.old.keys nodes.new.keys) }
{
    let none = sum.products().len();
    let grown = rebuilt(alloc, nodes, places, sum, none)?;
    grown.finish()
}

// A sum over the places, whose products become nodes but for the one at place `kept`.
fn rebuilt(
    alloc: Global,
    nodes: &mut IndexSet<Sum>,
    places: &[u32],
    sum: &Sum,
    kept: usize,
) -> Result<GrowingSum, Memory>
    requires places { IsSumOver (has_place places.now) sum.now }
    requires room { length nodes.old.keys + length sum.now.products ≤ MOST_WRITES }
    ensures { IfOk result (IsRebuiltBut kept places.now sum.now nodes.old.keys nodes.new.keys) }
{
    let mut whole = renumbered_bits(alloc, places, sum)?;
    for (k, product) in sum.products().iter().enumerate() {
        let part = part(alloc, nodes, places, product, k == kept)?;
        whole = whole.add(part)?;
    }
    Ok(whole)
}

// A product as it stands in its sum: itself if it is kept, else as the node that it becomes.
fn part(
    alloc: Global,
    nodes: &mut IndexSet<Sum>,
    places: &[u32],
    product: &Product,
    kept: bool,
) -> Result<GrowingSum, Memory>
    requires places { IsProductOver (has_place places.now) product.now }
    requires room { length nodes.old.keys < MOST_WRITES }
    ensures { IfOk result (IsPart kept places.now product.now nodes.old.keys nodes.new.keys) }
{
    let sum = renumbered_product(alloc, places, product)?;
    if kept {
        return Ok(sum);
    }
    let sum = sum.finish()?;
    if let Some(factor) = sum.factor()? {
        return GrowingSum::of(&factor);
    }
    let node = node_of(nodes, sum)?;
    GrowingSum::bit(alloc, Base::Node(node))
}

// The place of the product that reads the latest node, the first where several do.
fn latest(products: &[Product]) -> usize {
    let (mut place, mut latest) = (0, 0);
    for (k, product) in products.iter().enumerate() {
        let last = last_node(product.first()).max(last_node(product.second()));
        if last > latest {
            (place, latest) = (k, last);
        }
    }
    place
}

// The last node of some bits that rise, 0 where they have none.
fn last_node(bits: &[Base]) -> u32 {
    match bits.last() {
        Some(Base::Node(k)) => *k,
        _ => 0,
    }
}
