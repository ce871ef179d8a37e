// Which nodes of blocks are made once more behind these.
use crate::graph::SpanGraph;
use crate::schedules::Range;
use plan_tools::{Table, Work, number};

/// A node is repeated where it rests on at most one in so many nodes of its block.
const PART_OF_ONE: u32 = 3;

/// Of a block at most one in so many nodes are repeated, or none.
const PART_OF_ALL: u32 = 2;

/// The most nodes that are looked at in one block.
const MOST_LOOKS: u32 = 1_000_000;

/// Of each node, whether it is *repeated*: made once more behind its block, where it then takes no
/// lines beside those that it is made from. These are nodes that are wanted behind the block and
/// rest on few of its nodes, as those of a key schedule among rounds, with the nodes that they rest
/// on.
pub fn repeats(work: &mut Work, graph: &SpanGraph, blocks: &[Range]) -> Table<bool> {
    let mut all = Table::new(work, graph.nodes.len(), false);
    for block in blocks {
        for place in &repeats_of(work, graph, *block) {
            all.set(*place, true);
        }
    }
    all
}

// Those of one block; none where they would be too many.
fn repeats_of(work: &mut Work, graph: &SpanGraph, block: Range) -> Vec<u32> {
    let wanted = wanted_behind(work, graph, block);
    let mut cones = Cones::new(work, graph, block);
    let mut all = Vec::new(work.alloc);
    for place in block.from..block.to {
        if wanted.get(place) {
            let cone = cones.take(work, place);
            work.append(&mut all, &cone);
        }
    }
    if number(all.len()) > block.size() / PART_OF_ALL {
        all.clear();
    }
    all
}

// Of each node, whether it is of a block and read behind that.
fn wanted_behind(work: &mut Work, graph: &SpanGraph, block: Range) -> Table<bool> {
    let mut wanted = Table::new(work, graph.nodes.len(), false);
    for node in graph.nodes.iter().skip(block.to as usize) {
        for product in &node.products {
            block.mark(graph, &product.first, &mut wanted);
            block.mark(graph, &product.second, &mut wanted);
        }
        block.mark(graph, node.bits(), &mut wanted);
    }
    for output in &graph.outputs {
        block.mark(graph, &output.vector, &mut wanted);
    }
    wanted
}

// What a node rests on, of its block, is its cone, with the node itself.
#[derive(Drop)]
struct Cones<'g> {
    graph: &'g SpanGraph,
    block: Range,
    /// Of each node the last cone that reached it, counted from 1.
    reached: Table<u32>,
    cones: u32,
    /// Of each node, whether it is in a cone that was taken.
    taken: Table<bool>,
    looks: u32,
}

impl<'g> Cones<'g> {
    // No cone of a block yet.
    fn new(work: &mut Work, graph: &'g SpanGraph, block: Range) -> Cones<'g> {
        Cones {
            graph,
            block,
            reached: Table::new(work, graph.nodes.len(), 0),
            cones: 0,
            taken: Table::new(work, graph.nodes.len(), false),
            looks: 0,
        }
    }

    // Takes the cone of a node; what no cone had before, and nothing where that is too much.
    fn take(&mut self, work: &mut Work, top: u32) -> Vec<u32> {
        let mut cone = Vec::new(work.alloc);
        let most = self.block.size() / PART_OF_ONE;
        if self.looks > MOST_LOOKS {
            return cone;
        }
        self.cones = self.cones.saturating_add(1);
        self.reach(work, self.graph.symbol(top), &mut cone);
        for next in 0..most {
            let Some(place) = cone.get(next as usize).copied() else {
                break;
            };
            self.reach_reads(work, place, &mut cone);
        }
        if number(cone.len()) > most {
            cone.clear();
        }
        for place in &cone {
            self.taken.set(*place, true);
        }
        cone
    }

    // Appends what a node reads to a cone.
    fn reach_reads(&mut self, work: &mut Work, place: u32, cone: &mut Vec<u32>) {
        self.looks = self.looks.saturating_add(1);
        let graph = self.graph;
        let Some(node) = graph.node(place) else {
            return;
        };
        for product in &node.products {
            self.reach_all(work, &product.first, cone);
            self.reach_all(work, &product.second, cone);
        }
        self.reach_all(work, node.bits(), cone);
    }

    fn reach_all(&mut self, work: &mut Work, symbols: &[u32], cone: &mut Vec<u32>) {
        for symbol in symbols {
            self.reach(work, *symbol, cone);
        }
    }

    // Appends the node with a symbol to a cone, where it is of the block and in no cone that was
    // taken.
    fn reach(&mut self, work: &mut Work, symbol: u32, cone: &mut Vec<u32>) {
        let Some(place) = self.graph.place(symbol) else {
            return;
        };
        if !self.block.has(place) || self.taken.get(place) {
            return;
        }
        if self.reached.get(place) != self.cones {
            self.reached.set(place, self.cones);
            work.push(cone, place);
        }
    }
}
