// Nodes that are short sums, or are used once in a sum, go into their users; equal nodes, equal
// products and nodes that are always added to each other become one.
use crate::joining::join_nodes;
use plan_tools::{Table, Work};
use std::collections::BTreeMap;
use symbol_graphs::{Affine, Graph, Opened, SymbolProduct, SymbolSum, mixed, order_of};

// How often it is cleaned at most, one time after another.
const MOST_TIMES: usize = 3;

// The most symbols of a sum without products that goes into its users.
const SHORT_BITS: usize = 4;

// The most products of a sum that goes into its only user.
const MOST_MOVED: usize = 64;

/// Cleans the graph until nothing changes, and numbers its nodes; a graph in which nothing was done
/// since then is left as it is.
pub fn clean(graph: &mut Graph, work: &mut Work) {
    if graph.is_indexed() {
        return;
    }
    let mut order = order_of(graph, work);
    for _ in 0..MOST_TIMES {
        let done = graph.done();
        if join_nodes(graph, work, &order) {
            order = order_of(graph, work);
        }
        clean_nodes(graph, work, &mut order);
        share_products(graph, work, &order);
        if graph.done() == done {
            break;
        }
        order = order_of(graph, work);
    }
    graph.index(work, &order);
}

// Cleans all nodes, one after another.
fn clean_nodes(graph: &mut Graph, work: &mut Work, order: &mut Vec<u32>) {
    let done = graph.done();
    let mut cleaning = Cleaning::new(graph, work, order);
    for node in order.iter() {
        cleaning.clean_node(graph, work, *node);
    }
    if graph.done() > done {
        *order = order_of(graph, work);
    }
}

/// Takes nodes that are 0 out of their users, and changes nothing else.
pub fn drop_zeros(graph: &mut Graph, work: &mut Work) {
    let order = order_of(graph, work);
    let mut cleaning = Cleaning::new(graph, work, &order);
    for node in &order {
        cleaning.move_bits(graph, work, *node);
        cleaning.move_factors(graph, work, *node);
        let is_zero = graph.sum(*node).is_some_and(|sum| sum.is_zero());
        cleaning.is_moved.set(*node, is_zero);
    }
}

// ---- nodes

// How the nodes are used, and which go into their users.
#[derive(Drop)]
struct Cleaning {
    counts: Table<u32>,
    is_factor: Table<bool>,
    is_moved: Table<bool>,
    /// Nodes by the marks of their sums, and those that are one product alone by its mark.
    known: BTreeMap<u64, u32>,
    single: BTreeMap<u64, u32>,
}

impl Cleaning {
    fn new(graph: &Graph, work: &mut Work, order: &[u32]) -> Cleaning {
        let count = graph.nodes() as usize;
        let mut made = Cleaning {
            counts: Table::new(work, count, 0),
            is_factor: Table::new(work, count, false),
            is_moved: Table::new(work, count, false),
            known: BTreeMap::new(work.alloc),
            single: BTreeMap::new(work.alloc),
        };
        for node in order {
            if let Some(sum) = graph.sum(*node) {
                made.count_uses(graph, sum);
            }
        }
        made
    }

    fn count_uses(&mut self, graph: &Graph, sum: &SymbolSum) {
        self.count(graph, &sum.bits, false);
        for product in &sum.products {
            self.count(graph, &product.first, true);
            self.count(graph, &product.second, true);
        }
    }

    fn count(&mut self, graph: &Graph, symbols: &[u32], is_factor: bool) {
        for symbol in symbols {
            if let Some(node) = graph.node(*symbol) {
                self.counts
                    .set(node, self.counts.get(node).saturating_add(1));
                if is_factor {
                    self.is_factor.set(node, true);
                }
            }
        }
    }

    fn clean_node(&mut self, graph: &mut Graph, work: &mut Work, node: u32) {
        self.move_bits(graph, work, node);
        self.move_factors(graph, work, node);
        self.take_singles(graph, work, node);
        self.place(graph, work, node);
    }

    // Whether a node among these symbols goes into its users.
    fn are_moved(&self, graph: &Graph, symbols: &[u32]) -> bool {
        for symbol in symbols {
            if let Some(node) = graph.node(*symbol)
                && self.is_moved.get(node)
            {
                return true;
            }
        }
        false
    }

    // The sums of bits that are moved go into a node.
    fn move_bits(&self, graph: &mut Graph, work: &mut Work, node: u32) {
        let bits = match graph.sum(node) {
            Some(sum) if self.are_moved(graph, &sum.bits) => work.copy(&sum.bits),
            _ => return,
        };
        for symbol in &bits {
            if let Some(part) = graph.node(*symbol)
                && self.is_moved.get(part)
            {
                graph.define(work, node, part);
            }
        }
    }

    // The sums of symbols in factors that are moved go into the products of a node.
    fn move_factors(&self, graph: &mut Graph, work: &mut Work, node: u32) {
        let mut products = Vec::new(work.alloc);
        for product in graph.products(node) {
            if self.is_changed(graph, work, product) {
                let product = product.copy(work);
                work.push(&mut products, product);
            }
        }
        for product in products {
            self.move_factor(graph, work, node, product);
        }
    }

    fn is_changed(&self, graph: &Graph, work: &mut Work, product: &SymbolProduct) -> bool {
        self.are_moved(graph, &product.first)
            || self.are_moved(graph, &product.second)
            || !product.is_least(work)
    }

    fn move_factor(&self, graph: &mut Graph, work: &mut Work, node: u32, old: SymbolProduct) {
        let mut opened = Opened::new(work.alloc);
        let first = self.moved(graph, work, &old.first, &mut opened);
        let second = self.moved(graph, work, &old.second, &mut opened);
        opened.add_sum(work, &first.bits);
        opened.add_sum(work, &second.bits);
        let mut change = SymbolSum::zero(work.alloc);
        change.add_product(work, &first, &second);
        change.toggle(work, old);
        if !change.is_zero() {
            graph.change(work, node, change, opened);
        }
    }

    // A sum of symbols, with those that are moved written out.
    fn moved(
        &self,
        graph: &Graph,
        work: &mut Work,
        symbols: &[u32],
        opened: &mut Opened,
    ) -> Affine {
        let mut made = Affine::zero(work.alloc);
        made.bits = work.copy(symbols);
        for symbol in symbols {
            if let Some(node) = graph.node(*symbol)
                && self.is_moved.get(node)
                && let Some(sum) = graph.sum(node)
            {
                opened.open(work, *symbol);
                made.bits = work.sum_of(&made.bits, &[*symbol]);
                made.bits = work.sum_of(&made.bits, &sum.bits);
                made.one = made.one != sum.one;
            }
        }
        made
    }

    // Products that are nodes become their bits.
    fn take_singles(&self, graph: &mut Graph, work: &mut Work, node: u32) {
        let mut found = Vec::new(work.alloc);
        for product in graph.products(node) {
            if let Some(other) = self.single.get(&mark_of(product)) {
                work.push(&mut found, *other);
            }
        }
        for other in &found {
            graph.define(work, node, *other);
        }
    }

    // Decides whether a node goes into its users, or is another one.
    fn place(&mut self, graph: &mut Graph, work: &mut Work, node: u32) {
        let Some(sum) = graph.sum(node) else {
            return;
        };
        if self.goes(graph, sum, node) {
            self.is_moved.set(node, true);
            return;
        }
        let mark = sum.mark();
        if let Some(other) = self.known.get(&mark).copied() {
            graph.define(work, node, other);
            self.is_moved.set(node, true);
            return;
        }
        if let [product] = sum.products.as_slice()
            && sum.bits.is_empty()
        {
            work.note(self.single.insert(mark_of(product), node));
        }
        work.note(self.known.insert(mark, node));
    }

    fn goes(&self, graph: &Graph, sum: &SymbolSum, node: u32) -> bool {
        let is_linear = sum.products.is_empty();
        let is_used_once = self.counts.get(node) == 1 && !self.is_factor.get(node);
        is_linear && sum.bits.len() <= SHORT_BITS
            || is_used_once && !graph.is_output(node) && sum.products.len() <= MOST_MOVED
    }
}

fn mark_of(product: &SymbolProduct) -> u64 {
    mixed(mixed(7, &product.first), &product.second)
}

// ---- products

// A product that stands in two sums becomes a node.
fn share_products(graph: &mut Graph, work: &mut Work, order: &[u32]) {
    let shared = shared_marks(graph, work, order);
    if shared.is_empty() {
        return;
    }
    let mut nodes = BTreeMap::new(work.alloc);
    for node in order {
        note_single(graph, work, *node, &shared, &mut nodes);
    }
    for node in order {
        share(graph, work, *node, &shared, &mut nodes);
    }
}

// The marks that several products have, rising.
fn shared_marks(graph: &Graph, work: &mut Work, order: &[u32]) -> Vec<u64> {
    let mut marks = Vec::new(work.alloc);
    for node in order {
        for product in graph.products(*node) {
            work.push(&mut marks, mark_of(product));
        }
    }
    work.note(marks.sort());
    let mut shared = Vec::new(work.alloc);
    let mut last = None;
    for mark in &marks {
        if last == Some(*mark) {
            work.push(&mut shared, *mark);
        }
        last = Some(*mark);
    }
    shared
}

// Notes a node that is one such product.
fn note_single(
    graph: &Graph,
    work: &mut Work,
    node: u32,
    shared: &[u64],
    nodes: &mut BTreeMap<u64, u32>,
) {
    let Some(sum) = graph.sum(node) else {
        return;
    };
    if let [product] = sum.products.as_slice()
        && sum.bits.is_empty()
    {
        let mark = mark_of(product);
        if shared.binary_search(&mark).is_ok() && nodes.get(&mark).is_none() {
            work.note(nodes.insert(mark, node));
        }
    }
}

// The products of a node that stand in others too become nodes.
fn share(
    graph: &mut Graph,
    work: &mut Work,
    node: u32,
    shared: &[u64],
    nodes: &mut BTreeMap<u64, u32>,
) {
    let mut products = Vec::new(work.alloc);
    for product in graph.products(node) {
        if shared.binary_search(&mark_of(product)).is_ok() {
            let product = product.copy(work);
            work.push(&mut products, product);
        }
    }
    for product in products {
        share_one(graph, work, node, product, nodes);
    }
}

fn share_one(
    graph: &mut Graph,
    work: &mut Work,
    node: u32,
    product: SymbolProduct,
    nodes: &mut BTreeMap<u64, u32>,
) {
    let mark = mark_of(&product);
    if let Some(other) = nodes.get(&mark).copied() {
        graph.define(work, node, other);
        return;
    }
    let mut sum = SymbolSum::zero(work.alloc);
    sum.toggle(work, product);
    let made = graph.push(work, sum, graph.key(node));
    work.note(nodes.insert(mark, made));
    graph.define(work, node, made);
}
