// Outputs as sums of what is copied to their lines.
use crate::order::Order;
use bit_sums::Sum;
use plan_tools::Work;
use span_graphs::{Node, Output, SpanGraph};
use sum_graph::SumGraph;

/// Appends the outputs, in their order; their final nodes learn them as targets, and some nodes a
/// home. Each symbol that is added is a unit of work.
pub fn push_outputs(work: &mut Work, graph: &SumGraph, order: &Order, lowered: &mut SpanGraph) {
    let mut place: u32 = 0;
    for sum in graph.outputs() {
        let mut made = OutputSum::new(work, order, sum, place);
        let has_home = made.write_out(work, lowered);
        let output = Output {
            vector: made.vector,
            written: made.written,
            has_home,
            name: if sum.products().is_empty() {
                graph.nodes().checked_add(place)
            } else {
                None
            },
        };
        work.push(&mut lowered.outputs, output);
        if work.is_stopped() {
            return;
        }
        place = place.saturating_add(1);
    }
}

// The sum of an output, which is being written out.
#[derive(Drop)]
struct OutputSum {
    output: u32,
    vector: Vec<u32>,
    /// The nodes without products that were written out so far.
    written: Vec<u32>,
    /// Whether it has products, of its own or of final nodes.
    has_products: bool,
}

impl OutputSum {
    fn new(work: &mut Work, order: &Order, sum: &Sum, output: u32) -> OutputSum {
        OutputSum {
            output,
            vector: order.vector(work, sum.bits()),
            written: Vec::new(work.alloc),
            has_products: !sum.products().is_empty(),
        }
    }

    // Writes nodes out; whether one of them then has its home on the line of the output: the
    // greatest one of its sum, if that has no home yet.
    fn write_out(&mut self, work: &mut Work, graph: &mut SpanGraph) -> bool {
        self.write_finals(work, graph);
        if self.has_products {
            return false;
        }
        self.write_top(work, graph);
        let Some(node) = top_node(graph, &self.vector) else {
            return false;
        };
        if node.home.is_some() {
            return false;
        }
        node.home = Some(self.output);
        true
    }

    // Writes the final nodes out.
    fn write_finals(&mut self, work: &mut Work, graph: &mut SpanGraph) {
        let mut behind: usize = 0;
        for _ in 0..graph.symbols() {
            let Some(symbol) = self.vector.get(behind).copied() else {
                break;
            };
            if !self.write_final(work, graph, symbol) {
                behind = behind.saturating_add(1);
            }
        }
    }

    // Writes the node of a symbol out where it is final; whether it is. One that has products
    // learns the output as a target.
    fn write_final(&mut self, work: &mut Work, graph: &mut SpanGraph, symbol: u32) -> bool {
        let Some(place) = graph.place(symbol) else {
            return false;
        };
        let Some(node) = graph.nodes.get_mut(place as usize) else {
            return false;
        };
        if !node.is_final {
            return false;
        }
        self.write(work, node, place);
        if !node.is_linear() {
            self.has_products = true;
            work.push(&mut node.targets, self.output);
        }
        true
    }

    // Writes nodes without products out while one is the greatest.
    fn write_top(&mut self, work: &mut Work, graph: &SpanGraph) {
        for _ in 0..graph.nodes.len() {
            let Some(symbol) = self.vector.first().copied() else {
                break;
            };
            let Some(place) = graph.place(symbol) else {
                break;
            };
            match graph.node(place) {
                Some(node) if node.is_linear() => self.write(work, node, place),
                _ => break,
            }
        }
    }

    // Puts what a node is the sum of in its place.
    fn write(&mut self, work: &mut Work, node: &Node, place: u32) {
        let symbols = self.vector.len().saturating_add(node.event.len());
        work.spend(symbols as u64);
        self.vector = work.sum_of(&self.vector, &node.event);
        if node.is_linear() {
            work.push(&mut self.written, place);
        }
    }
}

// The node whose symbol is the greatest of a vector.
fn top_node<'g>(graph: &'g mut SpanGraph, vector: &[u32]) -> Option<&'g mut Node> {
    let place = graph.place(*vector.first()?)?;
    graph.nodes.get_mut(place as usize)
}
