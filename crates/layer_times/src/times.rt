// The latest times at which nodes can be made.
use layer_graphs::{LayerGraph, Node, levels};
use plan_tools::{Table, Work};

/// The latest times of nodes. Products are in layers, which count from 1; nodes without a product
/// come at boundaries, of which each has its number from the layer behind it. A product of a layer
/// is there from the next boundary on, and so are those of its bits that it can wait for.
#[derive(Drop)]
pub struct Times {
    /// How many layers there are: the highest level.
    pub depth: u32,
    /// Of each symbol its layer, or its boundary where it has no product.
    pub on: Table<u32>,
    levels: Table<u32>,
}

// When a sum wants its operands at the latest.
#[derive(Clone, Copy)]
struct Latest {
    /// The layer of a product.
    layer: u32,
    /// The boundary of a node without one.
    boundary: u32,
    /// How much sooner they come where their levels allow it.
    spare: u32,
}

impl Latest {
    // The time of an operand of a level.
    fn time(self, is_linear: bool, level: u32) -> u32 {
        let (time, least) = if is_linear {
            (self.boundary, level.saturating_add(1))
        } else {
            (self.layer, level)
        };
        time.saturating_sub(self.spare).max(least).min(time)
    }
}

impl Times {
    /// The latest times, in as many layers as there are levels. Outputs come as soon as can be.
    pub fn of(work: &mut Work, graph: &LayerGraph) -> Times {
        let levels = levels(work, graph);
        let depth = levels.items().iter().copied().max().unwrap_or(0);
        let mut times = Times {
            depth,
            on: last_times(work, graph, depth),
            levels,
        };
        times.hurry(graph);
        times.end(graph);
        times
    }

    // Has the operands of each node made as its time asks.
    fn hurry(&mut self, graph: &LayerGraph) {
        for symbol in (graph.inputs..graph.symbols()).rev() {
            if let Some(node) = graph.node(symbol) {
                self.hurry_operands(graph, symbol, node);
            }
        }
    }

    // A bit of a product can wait until that is made, which puts it behind a chain of others.
    fn hurry_operands(&mut self, graph: &LayerGraph, symbol: u32, node: &Node) {
        let time = self.on.get(symbol);
        let before = Latest {
            layer: time.saturating_sub(1),
            boundary: time,
            spare: 0,
        };
        let behind = Latest {
            layer: time,
            boundary: time.saturating_add(1),
            spare: 1,
        };
        match &node.factors {
            Some(factors) => {
                self.limit(graph, &factors.first, before);
                self.limit(graph, &factors.second, before);
                self.limit(graph, &node.bits, behind);
            }
            None => self.limit(graph, &node.bits, before),
        }
    }

    fn limit(&mut self, graph: &LayerGraph, symbols: &[u32], latest: Latest) {
        for symbol in symbols {
            let time = latest.time(graph.is_linear(*symbol), self.levels.get(*symbol));
            self.on.set(*symbol, self.on.get(*symbol).min(time));
        }
    }

    // Outputs and groups come at the first boundary at which all of their bits are there.
    fn end(&mut self, graph: &LayerGraph) {
        for symbol in graph.inputs..graph.symbols() {
            if let Some(
                Node {
                    bits,
                    place: None,
                    ..
                },
            ) = graph.node(symbol)
            {
                let boundary = self.complete(graph, bits);
                self.on.set(symbol, boundary);
            }
        }
    }

    fn complete(&self, graph: &LayerGraph, symbols: &[u32]) -> u32 {
        let mut boundary = 1;
        for symbol in symbols {
            let behind = u32::from(!graph.is_linear(*symbol));
            boundary = self.on.get(*symbol).saturating_add(behind).max(boundary);
        }
        boundary
    }
}

// The times at which nodes come where no one asks for them sooner.
fn last_times(work: &mut Work, graph: &LayerGraph, depth: u32) -> Table<u32> {
    let mut times = Table::new(work, graph.symbols() as usize, 0);
    for symbol in graph.inputs..graph.symbols() {
        let time = match graph.node(symbol) {
            Some(node) if node.is_linear() => depth.saturating_add(1),
            Some(node) => node.onto.map_or(depth, |onto| onto.layer),
            None => 0,
        };
        times.set(symbol, time);
    }
    times
}
