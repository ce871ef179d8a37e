// How the graph that is swept comes from a graph of sums.
use crate::order::Order;
use crate::outputs::push_outputs;
use bit_sums::Sum;
use plan_tools::{Stop, Table, Work, number};
use span_graphs::{Node, Product, SpanGraph};
use std::alloc::Global;
use sum_graph::SumGraph;

/// The most symbols that are added to write outputs out.
const MOST_WORK: u64 = 20_000_000;

/// The graph that is swept for these sums.
///
/// # Errors
///
/// `GaveUp` where writing the outputs out takes too much work; `Memory` where memory is refused. No
/// clause says so.
pub fn lower(alloc: Global, graph: &SumGraph) -> Result<SpanGraph, Stop> {
    let mut work = Work::new(alloc, MOST_WORK);
    let order = Order::of(&mut work, graph);
    let mut lowered = SpanGraph {
        inputs: graph.inputs(),
        nodes: nodes_of(&mut work, graph, &order),
        outputs: Vec::new(alloc),
    };
    mark_finals(&mut work, &mut lowered);
    push_outputs(&mut work, graph, &order, &mut lowered);
    work.finish(lowered)
}

fn nodes_of(work: &mut Work, graph: &SumGraph, order: &Order) -> Vec<Node> {
    let mut nodes = Vec::new(work.alloc);
    let mut symbol = graph.inputs();
    for name in &order.names {
        let node = node_of(work, graph, order, *name, symbol);
        work.push(&mut nodes, node);
        symbol = symbol.saturating_add(1);
    }
    nodes
}

// A node with its name and its symbol. Of an output it has the products alone: its bits are copied
// from other lines.
fn node_of(work: &mut Work, graph: &SumGraph, order: &Order, name: u32, symbol: u32) -> Node {
    let mut node = Node {
        name,
        event: work.copy(&[symbol]),
        products: Vec::new(work.alloc),
        is_final: false,
        targets: Vec::new(work.alloc),
        home: None,
    };
    if name < graph.nodes() {
        let sum = graph.node(name);
        let bits = order.vector(work, sum.bits());
        work.append(&mut node.event, &bits);
        push_products(work, order, sum, &mut node.products);
        return node;
    }
    let output = name - graph.nodes();
    work.push(&mut node.targets, output);
    if let Some(sum) = graph.outputs().get(output as usize) {
        push_products(work, order, sum, &mut node.products);
    }
    node
}

fn push_products(work: &mut Work, order: &Order, sum: &Sum, products: &mut Vec<Product>) {
    for product in sum.products() {
        let product = Product {
            first: order.vector(work, product.first()),
            second: order.vector(work, product.second()),
            first_written: Vec::new(work.alloc),
            second_written: Vec::new(work.alloc),
        };
        work.push(products, product);
    }
}

// Marks the nodes that only outputs want: those that are not in factors, nor in the bits of such a
// node. A node stands behind all that it has in it, so that what wants it was seen before it.
fn mark_finals(work: &mut Work, graph: &mut SpanGraph) {
    let mut wanted = Table::new(work, graph.nodes.len(), false);
    for place in (0..number(graph.nodes.len())).rev() {
        if let Some(node) = graph.node(place) {
            mark_wanted(&mut wanted, graph, node, place);
        }
    }
    let mut place: u32 = 0;
    for node in graph.nodes.iter_mut() {
        node.is_final = !wanted.get(place);
        place = place.saturating_add(1);
    }
}

// Marks what is in the factors of a node, and, where it is marked, in its bits.
fn mark_wanted(wanted: &mut Table<bool>, graph: &SpanGraph, node: &Node, place: u32) {
    for product in &node.products {
        mark(wanted, graph, &product.first);
        mark(wanted, graph, &product.second);
    }
    if wanted.get(place) {
        mark(wanted, graph, node.bits());
    }
}

fn mark(wanted: &mut Table<bool>, graph: &SpanGraph, symbols: &[u32]) {
    for symbol in symbols {
        if let Some(place) = graph.place(*symbol) {
            wanted.set(place, true);
        }
    }
}
