// What still needs each node.
use crate::cleaning::Clearing;
use layer_graphs::LayerGraph;
use layer_graphs::tables::count;
use plan_tools::{Table, Work};

/// Of each symbol how often it is needed yet: to be made itself, and by the nodes that use it when
/// they are made and when they are cleared. Where nothing needs it any more, it is ready to be
/// cleared, if it is one of those that are cleared before the end.
#[derive(Drop)]
pub struct Needs<'n> {
    graph: &'n LayerGraph,
    clearing: &'n Clearing,
    counts: Table<u32>,
    /// The nodes without a product that are ready to be cleared.
    pub linear: Vec<u32>,
    /// The products that are.
    pub products: Vec<u32>,
}

impl<'n> Needs<'n> {
    /// All that is needed before anything is made.
    pub fn of(work: &mut Work, graph: &'n LayerGraph, clearing: &'n Clearing) -> Needs<'n> {
        let mut counts = Table::new(work, graph.symbols() as usize, 1);
        for symbol in graph.inputs..graph.symbols() {
            for operands in graph.operands(symbol) {
                count(&mut counts, operands);
            }
            if clearing.is_cleared(symbol) {
                for operands in clearing.operands(graph, symbol) {
                    count(&mut counts, operands);
                }
            }
        }
        Needs {
            graph,
            clearing,
            counts,
            linear: Vec::new(work.alloc),
            products: Vec::new(work.alloc),
        }
    }

    /// Symbols are needed once less.
    pub fn pass(&mut self, work: &mut Work, symbols: &[u32]) {
        for symbol in symbols {
            let count = self.counts.get(*symbol).saturating_sub(1);
            self.counts.set(*symbol, count);
            if count == 0 && self.clearing.is_cleared(*symbol) {
                let ready = if self.graph.is_linear(*symbol) {
                    &mut self.linear
                } else {
                    &mut self.products
                };
                work.push(ready, *symbol);
            }
        }
    }

    /// The product of a node is made.
    pub fn pass_factors(&mut self, work: &mut Work, symbol: u32) {
        let graph = self.graph;
        for factor in graph.factors(symbol) {
            self.pass(work, factor);
        }
    }

    /// A node is there, with its bits.
    pub fn pass_bits(&mut self, work: &mut Work, symbol: u32) {
        let graph = self.graph;
        let [bits, _, _] = graph.operands(symbol);
        self.pass(work, bits);
        self.pass(work, &[symbol]);
    }

    /// A node is cleared.
    pub fn pass_clearing(&mut self, work: &mut Work, symbol: u32) {
        let (graph, clearing) = (self.graph, self.clearing);
        for operands in clearing.operands(graph, symbol) {
            self.pass(work, operands);
        }
    }
}
