// The graph that is swept: the nodes of a graph of sums in an order of their own.

/// A product of two sums of symbols.
#[derive(Drop)]
pub struct Product {
    pub first: Vec<u32>,
    pub second: Vec<u32>,
    /// The nodes without products that were written out in each factor, by their names.
    pub first_written: Vec<u32>,
    pub second_written: Vec<u32>,
}

/// What is toggled as one: a node of the graph of sums, or the products of an output.
#[derive(Drop)]
pub struct Node {
    /// Its place among the nodes of the graph of sums; outputs stand behind these.
    pub name: u32,
    /// What its products are the sum of: its symbol, and those of the bits of its sum.
    pub event: Vec<u32>,
    pub products: Vec<Product>,
    /// Whether it is in no factor, nor in the bits of a node that is: only outputs want it then.
    pub is_final: bool,
    /// Of a final node the outputs that have its products.
    pub targets: Vec<u32>,
    /// The output on whose line it stays.
    pub home: Option<u32>,
}

impl Node {
    /// Whether it has no products: then it is a sum of other symbols at each moment.
    pub fn is_linear(&self) -> bool {
        self.products.is_empty()
    }

    /// The symbols of the bits of its sum, falling.
    pub fn bits(&self) -> &[u32] {
        match self.event.split_first() {
            Some((_, bits)) => bits,
            None => &[],
        }
    }
}

/// An output, as the sum of what is copied to its line.
#[derive(Drop)]
pub struct Output {
    /// The symbols of its sum, without final nodes.
    pub vector: Vec<u32>,
    /// The nodes without products that were written out in it, by their places in the order.
    pub written: Vec<u32>,
    /// Whether a node stays on its line.
    pub has_home: bool,
    /// Its place among the nodes of the graph of sums, behind these, where it has no products: it
    /// is toggled in the end then, which takes no gate but that of a constant.
    pub name: Option<u32>,
}

/// A graph of sums as it is swept. Symbols are the inputs, and then the nodes, in an order in which
/// those without products come late, and the products of each output right behind their last
/// factor.
#[derive(Drop)]
pub struct SpanGraph {
    pub inputs: u32,
    pub nodes: Vec<Node>,
    pub outputs: Vec<Output>,
}

impl SpanGraph {
    /// The node at a place of the order.
    pub fn node(&self, place: u32) -> Option<&Node> {
        self.nodes.get(place as usize)
    }

    /// The symbol of the node at a place of the order.
    pub fn symbol(&self, place: u32) -> u32 {
        self.inputs.saturating_add(place)
    }

    /// The place of the node that has this symbol; none for an input.
    pub fn place(&self, symbol: u32) -> Option<u32> {
        symbol.checked_sub(self.inputs)
    }

    /// How many symbols there are.
    pub fn symbols(&self) -> usize {
        self.nodes.len().saturating_add(self.inputs as usize)
    }
}
