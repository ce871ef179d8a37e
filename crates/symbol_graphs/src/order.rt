// Orders of nodes.
use crate::graph::{GONE, Graph};
use plan_tools::{Table, Work};

/// The nodes that outputs rest on, and the outputs, operands first.
pub fn order_of(graph: &Graph, work: &mut Work) -> Vec<u32> {
    let mut walk = Walk {
        seen: Table::new(work, graph.nodes() as usize, false),
        stack: Vec::new(work.alloc),
        operands: Vec::new(work.alloc),
        order: Vec::new(work.alloc),
    };
    for output in graph.outputs() {
        walk.push_below(graph, work, output);
    }
    walk.order
}

// A walk in depth: which nodes were seen, those that wait, whose operands stand in the order then or
// not, and the operands of one that were not seen.
#[derive(Drop)]
struct Walk {
    seen: Table<bool>,
    stack: Vec<(u32, bool)>,
    operands: Vec<u32>,
    order: Vec<u32>,
}

impl Walk {
    // Appends a node behind all nodes that it rests on.
    fn push_below(&mut self, graph: &Graph, work: &mut Work, root: u32) {
        work.push(&mut self.stack, (root, false));
        for _ in 0..u32::MAX {
            let Some((node, is_done)) = self.stack.pop() else {
                return;
            };
            if is_done {
                work.push(&mut self.order, node);
            } else if !self.seen.get(node) {
                self.seen.set(node, true);
                work.push(&mut self.stack, (node, true));
                self.push_operands(graph, work, node);
            }
        }
    }

    // The last operand is the next one.
    fn push_operands(&mut self, graph: &Graph, work: &mut Work, node: u32) {
        let Some(sum) = graph.sum(node) else {
            return;
        };
        self.operands.clear();
        self.note_operands(graph, work, &sum.bits);
        for product in &sum.products {
            self.note_operands(graph, work, &product.first);
            self.note_operands(graph, work, &product.second);
        }
        work.sort_falling(&mut self.operands);
        self.operands.dedup();
        for operand in &self.operands {
            work.push(&mut self.stack, (*operand, false));
        }
    }

    fn note_operands(&mut self, graph: &Graph, work: &mut Work, symbols: &[u32]) {
        for symbol in symbols {
            if let Some(operand) = graph.node(*symbol)
                && !self.seen.get(operand)
            {
                work.push(&mut self.operands, operand);
            }
        }
    }
}

/// The nodes that are there, in the order of their places.
pub fn nodes_in_order(graph: &Graph, work: &mut Work) -> Vec<u32> {
    let mut places = Vec::new(work.alloc);
    for node in 0..graph.nodes() {
        let place = graph.node_place(node);
        if place != GONE {
            work.push(&mut places, (place, node));
        }
    }
    work.note(places.sort());
    let mut nodes = Vec::new(work.alloc);
    for (_, node) in &places {
        work.push(&mut nodes, *node);
    }
    nodes
}
