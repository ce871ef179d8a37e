// Sums of nodes that later parts use in their place.
use layer_graphs::{Factors, LayerGraph, Node};
use plan_tools::{NOWHERE, Table, Work, list_at, number};

/// A graph, with the parts of its symbols.
#[derive(Drop)]
pub struct Parted {
    pub graph: LayerGraph,
    pub parts: Table<u32>,
}

// A symbol of a part, by the sums of later parts that have it: where two are in the same ones they
// have the same mark.
#[derive(Clone, Copy, PartialEq, Eq, PartialOrd, Ord)]
struct Marked {
    part: u32,
    mark: u64,
    symbol: u32,
}

// A graph in the making, in which groups are nodes.
#[derive(Drop)]
struct Making<'m> {
    graph: &'m LayerGraph,
    parts: &'m Table<u32>,
    /// The symbols of each group, falling.
    groups: Vec<Vec<u32>>,
    /// Of each symbol the group of which it is the first one.
    leads: Table<u32>,
    /// Of each old symbol the new one, and so of each group.
    symbols: Table<u32>,
    names: Table<u32>,
    made: Parted,
}

/// The graph in which those symbols of a part that is cleaned are grouped that the sums of later
/// parts have together or not at all: their sum is a node behind the last of them, which stands for
/// them in all sums that have them together. So fewer nodes are used across parts.
pub fn grouped(work: &mut Work, graph: &LayerGraph, parts: &Table<u32>, cleaned: u32) -> Parted {
    let groups = groups_of(work, graph, parts, cleaned);
    let mut making = Making {
        graph,
        parts,
        leads: leads_of(work, graph, &groups),
        symbols: inputs_alone(work, graph),
        names: Table::new(work, groups.len(), NOWHERE),
        groups,
        made: Parted {
            graph: LayerGraph {
                inputs: graph.inputs,
                nodes: Vec::new(work.alloc),
                outputs: graph.outputs,
                places: graph.places,
            },
            parts: Table::of(work.filled(0, graph.inputs as usize), 0),
        },
    };
    for symbol in graph.inputs..graph.symbols() {
        making.push(work, symbol);
        making.push_group(work, symbol);
    }
    making.made
}

impl Making<'_> {
    // Appends the group of which a symbol is the first one.
    fn push_group(&mut self, work: &mut Work, symbol: u32) {
        let group = self.leads.get(symbol);
        if group == NOWHERE {
            return;
        }
        let node = Node {
            bits: self.sum(work, list_at(&self.groups, group)),
            factors: None,
            onto: None,
            place: None,
        };
        self.names.set(group, self.made.graph.symbols());
        work.push(&mut self.made.graph.nodes, node);
        self.made.parts.push(work, self.parts.get(symbol));
    }

    // Appends a node of the old graph.
    fn push(&mut self, work: &mut Work, symbol: u32) {
        let graph = self.graph;
        let Some(node) = graph.node(symbol) else {
            return;
        };
        let bits = self.sum(work, &node.bits);
        let factors = match &node.factors {
            Some(factors) => Some(Factors {
                first: self.sum(work, &factors.first),
                second: self.sum(work, &factors.second),
            }),
            None => None,
        };
        let node = Node {
            bits,
            factors,
            onto: node.onto,
            place: node.place,
        };
        self.symbols.set(symbol, self.made.graph.symbols());
        work.push(&mut self.made.graph.nodes, node);
        self.made.parts.push(work, self.parts.get(symbol));
    }

    // The new symbols of a sum.
    fn sum(&self, work: &mut Work, symbols: &[u32]) -> Vec<u32> {
        let mut left = work.copy(symbols);
        let mut sum = Vec::new(work.alloc);
        for symbol in symbols {
            let name = self.names.get(self.leads.get(*symbol));
            let group = list_at(&self.groups, self.leads.get(*symbol));
            let others = work.sum_of(&left, group);
            if name != NOWHERE && others.len().saturating_add(group.len()) == left.len() {
                left = others;
                work.push(&mut sum, name);
            }
        }
        for symbol in &left {
            work.push(&mut sum, self.symbols.get(*symbol));
        }
        work.sort_falling(&mut sum);
        sum
    }
}

// The groups of the symbols of parts that are cleaned.
fn groups_of(
    work: &mut Work,
    graph: &LayerGraph,
    parts: &Table<u32>,
    cleaned: u32,
) -> Vec<Vec<u32>> {
    let marks = marks_of(work, graph, parts);
    let mut all = Vec::new(work.alloc);
    for symbol in graph.inputs..graph.first_output() {
        let (part, mark) = (parts.get(symbol), marks.get(symbol));
        if part < cleaned && mark != 0 {
            work.push(&mut all, Marked { part, mark, symbol });
        }
    }
    all.sort_unstable();
    let mut groups: Vec<Vec<u32>> = Vec::new(work.alloc);
    let mut last = None;
    for Marked { part, mark, symbol } in all.iter().rev() {
        if last != Some((*part, *mark)) {
            work.push(&mut groups, Vec::new(work.alloc));
            last = Some((*part, *mark));
        }
        if let Some(group) = groups.last_mut() {
            work.push(group, *symbol);
        }
    }
    groups
}

// The marks of symbols; 0 where no later sum has one.
fn marks_of(work: &mut Work, graph: &LayerGraph, parts: &Table<u32>) -> Table<u64> {
    let mut marks = Table::new(work, graph.symbols() as usize, 0);
    let mut mark: u64 = 0;
    for user in graph.inputs..graph.symbols() {
        for operands in graph.operands(user) {
            mark = mark.wrapping_add(0x9E37_79B9_7F4A_7C15);
            add_mark(&mut marks, parts, operands, parts.get(user), mixed(mark));
        }
    }
    marks
}

// Marks those of some symbols that are of parts before one.
fn add_mark(marks: &mut Table<u64>, parts: &Table<u32>, symbols: &[u32], part: u32, mark: u64) {
    for symbol in symbols {
        if parts.get(*symbol) < part {
            marks.set(*symbol, marks.get(*symbol) ^ mark);
        }
    }
}

// A number in whose bits those of another one are mixed.
fn mixed(number: u64) -> u64 {
    let number = (number ^ (number >> 30)).wrapping_mul(0xBF58_476D_1CE4_E5B9);
    let number = (number ^ (number >> 27)).wrapping_mul(0x94D0_49BB_1331_11EB);
    number ^ (number >> 31)
}

// Of each symbol the group of several of which it is the first one.
fn leads_of(work: &mut Work, graph: &LayerGraph, groups: &[Vec<u32>]) -> Table<u32> {
    let mut leads = Table::new(work, graph.symbols() as usize, NOWHERE);
    for (group, symbols) in groups.iter().enumerate() {
        if let [first, _, ..] = symbols.as_slice() {
            leads.set(*first, number(group));
        }
    }
    leads
}

// The new symbols of inputs, which are the old ones.
fn inputs_alone(work: &mut Work, graph: &LayerGraph) -> Table<u32> {
    let mut symbols = Table::new(work, graph.symbols() as usize, NOWHERE);
    for input in 0..graph.inputs {
        symbols.set(input, input);
    }
    symbols
}
