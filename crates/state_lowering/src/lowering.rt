// How the graph that is swept comes from a graph of sums.
use crate::values::{Parts, Values};
use crate::weights::weights_of;
use plan_tools::{Stop, Table, Work};
use state_graphs::{StateGraph, StateNode, StateOutput};
use state_orders::{Arrangement, Item, Items, Order, Ranks, Side};
use std::alloc::Global;
use sum_graph::SumGraph;

/// The most symbols that are added for the values of nodes, and places that segments pass.
const MOST_WORK: u64 = 40_000_000;

/// The graph that is swept for these sums, each of whose nodes has at most one product, and whose
/// outputs have none.
///
/// # Errors
///
/// `GaveUp` where the values of nodes take too much work, or the products are not as said; `Memory`
/// where memory is refused. No clause says so.
pub fn lower(
    alloc: Global,
    graph: &SumGraph,
    arrangement: Arrangement,
) -> Result<StateGraph, Stop> {
    let mut work = Work::new(alloc, MOST_WORK);
    let mut items = Items::of(&mut work, graph);
    let order = order_of(&mut work, &mut items, arrangement);
    let mut lowered = StateGraph {
        inputs: graph.inputs(),
        nodes: Vec::new(alloc),
        outputs: Vec::new(alloc),
        weights: Table::of(Vec::new(alloc), 0),
        starts: Vec::new(alloc),
    };
    put_all(&mut work, graph, &items, &order, &mut lowered);
    lowered.weights = weights_of(&mut work, &lowered);
    lowered.starts = order.starts;
    work.finish(lowered)
}

// The order of the items that have symbols, among which are some sums then.
fn order_of(work: &mut Work, items: &mut Items, arrangement: Arrangement) -> Order {
    match arrangement {
        Arrangement::Read => Order::of(work, items),
        Arrangement::Late | Arrangement::Words => {
            let order = Order::of(work, items).late(work, items);
            mark_long(work, items, &order, arrangement);
            order.with_long(work, items, arrangement)
        }
        Arrangement::FirstRanks => in_ranks(work, items, Side::First),
        Arrangement::LastRanks => in_ranks(work, items, Side::Last),
    }
}

// That by ranks.
fn in_ranks(work: &mut Work, items: &mut Items, side: Side) -> Order {
    let ranks = Ranks::of(work, items, side);
    let order = ranks.order(work, items);
    mark_long(work, items, &order, Arrangement::Words);
    ranks.with_sums(work, items)
}

fn mark_long(work: &mut Work, items: &mut Items, order: &Order, arrangement: Arrangement) {
    let long = Values::long(work, items, order, arrangement);
    items.mark_long(&long);
}

fn put_all(
    work: &mut Work,
    graph: &SumGraph,
    items: &Items,
    order: &Order,
    lowered: &mut StateGraph,
) {
    let mut values = Values::of(work, items, order);
    for place in &order.places {
        if let Some(item) = items.item(*place) {
            let parts = values.push(work, *place);
            let node = node_of(work, &values, lowered, *place, item, parts);
            work.push(&mut lowered.nodes, node);
        }
        if work.is_stopped() {
            return;
        }
    }
    push_outputs(work, &values, items, graph.nodes(), lowered);
}

fn node_of(
    work: &mut Work,
    values: &Values<'_>,
    lowered: &StateGraph,
    place: u32,
    item: &Item,
    parts: Parts,
) -> StateNode {
    let event = if item.is_linear() {
        Vec::new(work.alloc)
    } else {
        values.event(work, place)
    };
    StateNode {
        name: item.name,
        written: values.written(work, &event, &parts.event),
        first_written: values.written(work, &item.first, &parts.first),
        second_written: values.written(work, &item.second, &parts.second),
        below: below(work, lowered, &parts),
        event: parts.event,
        bits: parts.bits,
        first: parts.first,
        second: parts.second,
    }
}

// The places of the nodes whose symbols a new node has in its event or its factors.
fn below(work: &mut Work, lowered: &StateGraph, parts: &Parts) -> Vec<u32> {
    let mut places = Vec::new(work.alloc);
    push_places(work, lowered, &parts.event, &mut places);
    push_places(work, lowered, &parts.first, &mut places);
    push_places(work, lowered, &parts.second, &mut places);
    places.sort_unstable();
    places.dedup();
    places
}

fn push_places(work: &mut Work, lowered: &StateGraph, vector: &[u32], places: &mut Vec<u32>) {
    for symbol in vector {
        if let Some(place) = lowered.place(*symbol)
            && (place as usize) < lowered.nodes.len()
        {
            work.push(places, place);
        }
    }
}

fn push_outputs(
    work: &mut Work,
    values: &Values<'_>,
    items: &Items,
    nodes: u32,
    lowered: &mut StateGraph,
) {
    let mut name = nodes;
    for marks in &items.outputs {
        let vector = values.sum(work, marks);
        let output = StateOutput {
            name,
            written: values.written(work, marks, &vector),
            vector,
        };
        work.push(&mut lowered.outputs, output);
        name = name.saturating_add(1);
    }
}
