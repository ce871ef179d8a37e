// The nodes of a graph of sums in the order in which they are read.
use bit_sums::Sum;
use dependency_graph::Base;
use plan_tools::{Table, Work};
use sum_graph::SumGraph;

/// A node of the graph of sums. Lists of marks fall: an input is its own mark, and an item that of
/// its place behind the inputs.
#[derive(Drop)]
pub struct Item {
    /// Its place among the nodes of the graph of sums.
    pub name: u32,
    pub bits: Vec<u32>,
    /// The factors of its product; both are empty where it has none.
    pub first: Vec<u32>,
    pub second: Vec<u32>,
    /// Whether it is to have a symbol though it has no product.
    pub is_long: bool,
}

impl Item {
    /// Whether it has no product.
    pub fn is_linear(&self) -> bool {
        self.first.is_empty()
    }
}

/// All nodes, each behind those that it reads.
#[derive(Drop)]
pub struct Items {
    pub inputs: u32,
    pub list: Vec<Item>,
    /// Of each output the marks of its bits.
    pub outputs: Vec<Vec<u32>>,
    /// Of each item the places of those that it reads.
    pub reads: Vec<Vec<u32>>,
}

impl Items {
    /// The nodes of a graph with at most one product each, as they stand there; but one that is a
    /// product alone, and is in no factor, stands right behind the last node that it reads. The
    /// work gives up where a node has two products, or an output has one.
    pub fn of(work: &mut Work, graph: &SumGraph) -> Items {
        let marks = Marks::of(work, graph);
        let mut items = Items {
            inputs: graph.inputs(),
            list: Vec::new(work.alloc),
            outputs: Vec::new(work.alloc),
            reads: Vec::new(work.alloc),
        };
        for name in &marks.names {
            if *name < graph.nodes() {
                items.push(work, &marks, *name, graph.node(*name));
            }
        }
        items.push_outputs(work, &marks, graph);
        items
    }

    fn push(&mut self, work: &mut Work, marks: &Marks, name: u32, sum: &Sum) {
        let mut item = Item {
            name,
            bits: marks.list(work, sum.bits()),
            first: Vec::new(work.alloc),
            second: Vec::new(work.alloc),
            is_long: false,
        };
        if let Some(product) = sum.products().first() {
            item.first = marks.list(work, product.first());
            item.second = marks.list(work, product.second());
        }
        if sum.products().len() > 1 {
            work.give_up();
        }
        let reads = self.read_by(work, &item);
        work.push(&mut self.reads, reads);
        work.push(&mut self.list, item);
    }

    fn push_outputs(&mut self, work: &mut Work, marks: &Marks, graph: &SumGraph) {
        for sum in graph.outputs() {
            let bits = marks.list(work, sum.bits());
            work.push(&mut self.outputs, bits);
            if !sum.products().is_empty() {
                work.give_up();
            }
        }
    }

    // The places of the items that one reads.
    fn read_by(&self, work: &mut Work, item: &Item) -> Vec<u32> {
        let mut reads = Vec::new(work.alloc);
        self.push_places(work, &item.bits, &mut reads);
        self.push_places(work, &item.first, &mut reads);
        self.push_places(work, &item.second, &mut reads);
        reads
    }

    fn push_places(&self, work: &mut Work, marks: &[u32], places: &mut Vec<u32>) {
        for mark in marks {
            if let Some(place) = mark.checked_sub(self.inputs) {
                work.push(places, place);
            }
        }
    }

    /// The item at a place.
    pub fn item(&self, place: u32) -> Option<&Item> {
        self.list.get(place as usize)
    }

    /// Whether the item at a place has no symbol.
    pub fn is_sum(&self, place: u32) -> bool {
        match self.item(place) {
            Some(item) => item.is_linear() && !item.is_long,
            None => false,
        }
    }

    /// Items are to have symbols though they have no products.
    pub fn mark_long(&mut self, places: &[u32]) {
        for place in places {
            if let Some(item) = self.list.get_mut(*place as usize) {
                item.is_long = true;
            }
        }
    }

    /// Whether the item at a place has no product.
    pub fn is_linear(&self, place: u32) -> bool {
        match self.item(place) {
            Some(item) => item.is_linear(),
            None => false,
        }
    }
}

// The mark of each node.
#[derive(Drop)]
struct Marks {
    /// The nodes in the order of the items.
    names: Vec<u32>,
    marks: Table<u32>,
}

// Where a node stands: at the place of this node, counted from 1; behind it those that moved there.
#[derive(Clone, Copy, PartialEq, Eq, PartialOrd, Ord)]
struct Key {
    place: u32,
    is_moved: bool,
    name: u32,
}

impl Marks {
    fn of(work: &mut Work, graph: &SumGraph) -> Marks {
        let keys = keys_of(work, graph);
        let mut names = Vec::new(work.alloc);
        let mut marks = Table::new(work, keys.len(), 0);
        let mut mark = graph.inputs();
        for key in &keys {
            work.push(&mut names, key.name);
            marks.set(key.name, mark);
            mark = mark.saturating_add(1);
        }
        Marks { names, marks }
    }

    // The marks of bits, falling.
    fn list(&self, work: &mut Work, bits: &[Base]) -> Vec<u32> {
        let mut marks = Vec::new(work.alloc);
        for bit in bits {
            let mark = match bit {
                Base::Input(input) => *input,
                Base::Node(node) => self.marks.get(*node),
            };
            work.push(&mut marks, mark);
        }
        work.sort_falling(&mut marks);
        marks
    }
}

// The keys of all nodes, rising.
fn keys_of(work: &mut Work, graph: &SumGraph) -> Vec<Key> {
    let inner = inner_of(work, graph);
    let mut keys = Vec::new(work.alloc);
    let mut places = Table::new(work, graph.nodes() as usize, 0);
    for name in 0..graph.nodes() {
        let key = key_of(graph.node(name), name, inner.get(name), &places);
        places.set(name, key.place);
        work.push(&mut keys, key);
    }
    keys.sort_unstable();
    keys
}

// Of each node whether it is in a factor, or in the bits of a node without products that is.
fn inner_of(work: &mut Work, graph: &SumGraph) -> Table<bool> {
    let mut inner = Table::new(work, graph.nodes() as usize, false);
    for name in (0..graph.nodes()).rev() {
        let sum = graph.node(name);
        if let Some(product) = sum.products().first() {
            mark(product.first(), &mut inner);
            mark(product.second(), &mut inner);
        } else if inner.get(name) {
            mark(sum.bits(), &mut inner);
        }
    }
    inner
}

fn mark(bits: &[Base], inner: &mut Table<bool>) {
    for bit in bits {
        if let Base::Node(node) = bit {
            inner.set(*node, true);
        }
    }
}

// A node that is a product alone and not inner moves up.
fn key_of(sum: &Sum, name: u32, is_inner: bool, places: &Table<u32>) -> Key {
    if let Some(product) = sum.products().first()
        && sum.bits().is_empty()
        && !is_inner
    {
        let first = last_place(product.first(), places);
        let second = last_place(product.second(), places);
        return Key {
            place: first.max(second),
            is_moved: true,
            name,
        };
    }
    Key {
        place: name.saturating_add(1),
        is_moved: false,
        name,
    }
}

// The last place at which one of these bits stands.
fn last_place(bits: &[Base], places: &Table<u32>) -> u32 {
    let mut last = 0;
    for bit in bits {
        if let Base::Node(node) = bit {
            last = places.get(*node).max(last);
        }
    }
    last
}
