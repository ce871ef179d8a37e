// The order of the nodes.
use bit_sums::{Product, Sum};
use dependency_graph::Base;
use plan_tools::{Table, Work};
use sum_graph::SumGraph;

/// The order of nodes, and the symbol of each of them.
#[derive(Drop)]
pub struct Order {
    /// The nodes of the graph of sums, and, behind these, its outputs, so far as they have
    /// products.
    pub names: Vec<u32>,
    /// Of each node of the graph of sums its symbol.
    symbols: Table<u32>,
}

impl Order {
    /// A node without products stands right before the first node that has it in its sum, and the
    /// products of an output right behind the last node in their factors.
    pub fn of(work: &mut Work, graph: &SumGraph) -> Order {
        let mut symbols = Table::new(work, graph.nodes() as usize, 0);
        let mut keys = late_keys(work, graph);
        number_keys(&mut keys, 0, &mut symbols);
        push_output_keys(work, graph, &symbols, &mut keys);
        keys.sort_unstable();
        number_keys(&mut keys, graph.inputs(), &mut symbols);
        let mut names = Vec::new(work.alloc);
        for key in &keys {
            work.push(&mut names, key.name);
        }
        Order { names, symbols }
    }

    /// The vector of a sum of bits.
    pub fn vector(&self, work: &mut Work, bits: &[Base]) -> Vec<u32> {
        let mut symbols = Vec::new(work.alloc);
        for bit in bits {
            let symbol = match bit {
                Base::Input(input) => *input,
                Base::Node(node) => self.symbols.get(*node),
            };
            work.push(&mut symbols, symbol);
        }
        work.sort_falling(&mut symbols);
        symbols
    }
}

// Where a node or an output stands: by this place, a node with products behind those without, and a
// node behind outputs; outputs at one place by the first bits of their first products, so that
// those with shared bits stand side by side.
#[derive(Clone, Copy, PartialEq, Eq, PartialOrd, Ord)]
struct Key {
    place: u32,
    is_late: bool,
    bits: Option<(Base, Base)>,
    name: u32,
}

// Gives the keys the places at which they stand, from `first` on, and notes those of the nodes,
// behind any outputs there.
fn number_keys(keys: &mut [Key], first: u32, places: &mut Table<u32>) {
    let mut place = first;
    for key in keys.iter_mut() {
        key.place = place;
        key.is_late = true;
        places.set(key.name, place);
        place = place.saturating_add(1);
    }
}

// The nodes, each without products right before its first user; users that move count where they
// go.
fn late_keys(work: &mut Work, graph: &SumGraph) -> Vec<Key> {
    let count = graph.nodes();
    let mut users = Table::new(work, count as usize, count);
    let mut keys = Vec::new(work.alloc);
    for node in (0..count).rev() {
        let sum = graph.node(node);
        let is_late = !sum.products().is_empty();
        let place = if is_late { node } else { users.get(node) };
        note_users(&mut users, sum, place);
        let key = Key {
            place,
            is_late,
            bits: None,
            name: node,
        };
        work.push(&mut keys, key);
    }
    keys.sort_unstable();
    keys
}

// Notes a user of all that a sum is made of, where it is the first so far.
fn note_users(users: &mut Table<u32>, sum: &Sum, place: u32) {
    note_user(users, sum.bits(), place);
    for product in sum.products() {
        note_user(users, product.first(), place);
        note_user(users, product.second(), place);
    }
}

fn note_user(users: &mut Table<u32>, bits: &[Base], place: u32) {
    for bit in bits {
        if let Base::Node(node) = bit {
            users.set(*node, place.min(users.get(*node)));
        }
    }
}

// Appends the outputs that have products, for nodes at these places.
fn push_output_keys(work: &mut Work, graph: &SumGraph, places: &Table<u32>, keys: &mut Vec<Key>) {
    let mut name = graph.nodes();
    for output in graph.outputs() {
        if let Some(product) = output.products().first() {
            let key = Key {
                place: behind_factors(output, places),
                is_late: false,
                bits: first_bits(product),
                name,
            };
            work.push(keys, key);
        }
        name = name.saturating_add(1);
    }
}

fn first_bits(product: &Product) -> Option<(Base, Base)> {
    Some((*product.first().first()?, *product.second().first()?))
}

// The least place behind all nodes that are in factors of a sum.
fn behind_factors(sum: &Sum, places: &Table<u32>) -> u32 {
    let mut behind = 0;
    for product in sum.products() {
        behind = behind.max(behind_bits(product.first(), places));
        behind = behind.max(behind_bits(product.second(), places));
    }
    behind
}

fn behind_bits(bits: &[Base], places: &Table<u32>) -> u32 {
    let mut behind: u32 = 0;
    for bit in bits {
        if let Base::Node(node) = bit {
            behind = places.get(*node).saturating_add(1).max(behind);
        }
    }
    behind
}
