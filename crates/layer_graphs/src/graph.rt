// The graph that is laid in layers.
use bit_sums::Sum;
use dependency_graph::Base;
use plan_tools::{Work, number};
use sum_graph::SumGraph;

/// The factors of a product, each by the falling list of the symbols whose sum it is.
#[derive(Drop)]
pub struct Factors {
    pub first: Vec<u32>,
    pub second: Vec<u32>,
}

/// A node: the sum of some bits and of at most one product.
#[derive(Drop)]
pub struct Node {
    /// The symbols of its bits, falling.
    pub bits: Vec<u32>,
    pub factors: Option<Factors>,
    /// The output onto whose line it goes, for good; none where it takes a line of its own.
    pub onto: Option<Onto>,
    /// Its place in the graph of sums; none where it is no node of that, but a sum of some.
    pub place: Option<u32>,
}

/// An output onto whose line a node goes, and the layer in which it does where it has a product.
#[derive(Clone, Copy)]
pub struct Onto {
    pub output: u32,
    pub layer: u32,
}

impl Node {
    /// Whether it has no product: then it is a sum of other symbols.
    pub fn is_linear(&self) -> bool {
        self.factors.is_none()
    }
}

/// A graph of sums whose nodes have at most one product, and whose outputs have none. Symbols are
/// the inputs, then the nodes in their order, and then the outputs, which are nodes that go onto
/// their lines.
#[derive(Drop)]
pub struct LayerGraph {
    pub inputs: u32,
    /// The nodes, and behind them the outputs.
    pub nodes: Vec<Node>,
    pub outputs: u32,
    /// How many nodes the graph of sums has.
    pub places: u32,
}

impl LayerGraph {
    /// The graph of these sums, in time near linear in their bits. The work gives up where a node
    /// has more than one product, or an output has any.
    pub fn of(work: &mut Work, graph: &SumGraph) -> LayerGraph {
        let inputs = graph.inputs();
        let mut nodes = Vec::new(work.alloc);
        for place in 0..graph.nodes() {
            let mut node = node_of(work, inputs, graph.node(place), 1);
            node.place = Some(place);
            work.push(&mut nodes, node);
        }
        for (output, sum) in graph.outputs().iter().enumerate() {
            let mut node = node_of(work, inputs, sum, 0);
            node.onto = Some(Onto {
                output: number(output),
                layer: 0,
            });
            work.push(&mut nodes, node);
        }
        LayerGraph {
            inputs,
            nodes,
            outputs: number(graph.outputs().len()),
            places: graph.nodes(),
        }
    }

    /// The symbol behind the last one.
    pub fn symbols(&self) -> u32 {
        self.inputs.saturating_add(number(self.nodes.len()))
    }

    /// The symbol of the first output.
    pub fn first_output(&self) -> u32 {
        self.symbols().saturating_sub(self.outputs)
    }

    /// How many inputs and outputs there are.
    pub fn ports(&self) -> u32 {
        self.inputs.saturating_add(self.outputs)
    }

    /// The node of a symbol; none for an input.
    pub fn node(&self, symbol: u32) -> Option<&Node> {
        self.nodes.get(symbol.checked_sub(self.inputs)? as usize)
    }

    /// The same, to be changed.
    pub fn node_mut(&mut self, symbol: u32) -> Option<&mut Node> {
        self.nodes
            .get_mut(symbol.checked_sub(self.inputs)? as usize)
    }

    /// Whether a symbol is that of a node or an output without a product.
    pub fn is_linear(&self, symbol: u32) -> bool {
        match self.node(symbol) {
            Some(node) => node.is_linear(),
            None => false,
        }
    }

    /// The output onto whose line the node of a symbol goes.
    pub fn onto(&self, symbol: u32) -> Option<Onto> {
        self.node(symbol)?.onto
    }

    /// The factors of a node; empty ones where it has no product.
    pub fn factors(&self, symbol: u32) -> [&[u32]; 2] {
        let [_, first, second] = self.operands(symbol);
        [first, second]
    }

    /// The bits of a node, and its factors, which are empty where it has no product.
    pub fn operands(&self, symbol: u32) -> [&[u32]; 3] {
        match self.node(symbol) {
            Some(
                Node {
                    bits,
                    factors: Some(factors),
                    ..
                },
            ) => [bits, &factors.first, &factors.second],
            Some(node) => [&node.bits, &[], &[]],
            None => [&[], &[], &[]],
        }
    }
}

// The node of a sum that may have so many products.
fn node_of(work: &mut Work, inputs: u32, sum: &Sum, most: usize) -> Node {
    if sum.products().len() > most {
        work.give_up();
    }
    let factors = match sum.products().first() {
        Some(product) => Some(Factors {
            first: symbols_of(work, inputs, product.first()),
            second: symbols_of(work, inputs, product.second()),
        }),
        None => None,
    };
    Node {
        bits: symbols_of(work, inputs, sum.bits()),
        factors,
        onto: None,
        place: None,
    }
}

// The symbols of bits, falling.
fn symbols_of(work: &mut Work, inputs: u32, bits: &[Base]) -> Vec<u32> {
    let mut symbols = Vec::new(work.alloc);
    for bit in bits {
        let symbol = match *bit {
            Base::Input(input) => input,
            Base::Node(node) => inputs.saturating_add(node),
        };
        work.push(&mut symbols, symbol);
    }
    work.sort_falling(&mut symbols);
    symbols
}
