// The nodes and outputs of a graph, written from the sums of nodes.
ghost use Rattle.std.specs.Prelude.{◌≡◌, ◌<◌, ◌+◌, ◌^◌, IfOk, IfSome};
ghost use Rattle.few_products.specs.inside.Writing.{HasWritten, HaveNoPlace, IsNamed, IsReady};
ghost use Rattle.few_products.specs.inside.Writing.{IsWhole, IsWrittenNode, IsWrittenOutput};

use crate::placing::{Place, Written};
use bit_sums::Sum;
use dependency_graph::Base;
use indexmap::IndexSet;
use revc_base::Memory;
use revs_tape::limits::MOST_WRITES;
use std::alloc::Global;
use sum_graph::node_of;
use wide_sums::WideSum;

/// Written nodes, and sums over them.
#[derive(Drop)]
pub struct Outputs {
    pub nodes: Vec<Sum>,
    pub sums: Vec<Sum>,
}

/// Writes the nodes in an order; none where one is of a node that is not written yet, or there are
/// too many.
pub fn nodes_in_order(
    alloc: Global,
    inputs: u32,
    definitions: &[WideSum],
    order: &[u32],
) -> Result<Option<Written>, Memory>
    ensures { IfOk result (λ found. IfSome found (λ written.
        (written.inputs ≡ inputs) × HasWritten definitions.now written)) }
{
    let nodes = IndexSet::new(alloc);
    let places = nowhere(alloc, definitions.len())?;
    let mut written = Written {
        inputs,
        nodes,
        places,
    };
    for node in order {
        let Some(sum) = definitions.get(*node as usize) else {
            return Ok(None);
        };
        let Some(place) = written.write_node(alloc, sum)? else {
            return Ok(None);
        };
        written.places[*node as usize] = Some(place);
    }
    Ok(Some(written))
}

// So many nodes that have no place.
fn nowhere(alloc: Global, count: usize) -> Result<Vec<Option<Place>>, Memory>
    ensures { IfOk result (λ places. HaveNoPlace count places.items) }
{
    let mut places = Vec::new(alloc);
    for _number in 0..count {
        places.push(None)?;
    }
    Ok(places)
}

/// The sums of so many nodes from one on, as outputs; none where one is of a node that is not
/// written.
pub fn outputs_from(
    alloc: Global,
    definitions: &[WideSum],
    written: Written,
    first: u32,
    count: u32,
) -> Result<Option<Outputs>, Memory>
    requires written { HasWritten definitions.now written }
    requires few { first + count < 2 ^ 32 }
    ensures { IfOk result (λ found. IfSome found (λ outputs. IsWhole written.inputs definitions.now
        first count outputs.nodes.items outputs.sums.items)) }
{
    let mut written = written;
    let mut sums = Vec::new(alloc);
    for number in 0..count {
        let node = first.saturating_add(number);
        let Some(sum) = written.output(alloc, definitions, node)? else {
            return Ok(None);
        };
        sums.push(sum)?;
    }
    let Written { nodes, .. } = written;
    let nodes = listed(alloc, nodes)?;
    Ok(Some(Outputs { nodes, sums }))
}

// Nodes in their order.
fn listed(alloc: Global, nodes: IndexSet<Sum>) -> Result<Vec<Sum>, Memory>
    ensures { IfOk result (λ list. list.items ≡ nodes.keys) }
{
    let list: Vec<Sum> = nodes.into_iter().collect(alloc)?;
    Ok(list)
}

impl Written {
    // Writes a node; its place.
    fn write_node(&mut self, alloc: Global, sum: &WideSum) -> Result<Option<Place>, Memory>
        requires { IsReady self.old }
        ensures { IfOk result (λ found. IfSome found (IsWrittenNode sum.now self.old self.new)) }
    {
        let Some(whole) = self.sum_at(alloc, sum)? else {
            return Ok(None);
        };
        if self.nodes.len() >= MOST_WRITES {
            return Ok(None);
        }
        let whole = whole.finish()?;
        let negated = whole.one();
        let node = node_of(&mut self.nodes, whole.without_one())?;
        Ok(Some(Place { node, negated }))
    }

    // The sum of a node as an output: its bit where it is written, else its sum.
    fn output(
        &mut self,
        alloc: Global,
        definitions: &[WideSum],
        node: u32,
    ) -> Result<Option<Sum>, Memory>
        requires { IsReady self.old }
        ensures { IfOk result (λ found. IfSome found
            (IsWrittenOutput definitions.now node self.old self.new)) }
    {
        let Some(named) = named(alloc, &self.places, definitions, node)? else {
            return Ok(None);
        };
        let Some(sum) = self.sum_at(alloc, &named)? else {
            return Ok(None);
        };
        Ok(Some(sum.finish()?))
    }
}

// The bit of a node that has a place, and the sum of one that has none.
fn named(
    alloc: Global,
    places: &[Option<Place>],
    definitions: &[WideSum],
    node: u32,
) -> Result<Option<WideSum>, Memory>
    ensures { IfOk result (λ found. IfSome found (IsNamed definitions.now node)) }
{
    if let Some(Some(_)) = places.get(node as usize) {
        let bits = Vec::from_slice(alloc, &[Base::Node(node)])?;
        return Ok(Some(WideSum::new(bits, Vec::new(alloc), false)));
    }
    match definitions.get(node as usize) {
        Some(sum) => Ok(Some(sum.copy(alloc)?)),
        None => Ok(None),
    }
}
