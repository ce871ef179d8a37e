// The graph that is swept.
use plan_tools::Table;

/// A node with a product, or a sum with a symbol of its own, which has empty factors. Vectors are
/// falling lists of symbols.
#[derive(Drop)]
pub struct StateNode {
    /// Its place among the nodes of the graph of sums.
    pub name: u32,
    /// What its product adds to a line.
    pub event: Vec<u32>,
    /// Its value less that.
    pub bits: Vec<u32>,
    /// The factors of its product.
    pub first: Vec<u32>,
    pub second: Vec<u32>,
    /// The nodes without products that are toggled onto a line beside it, by their names: the line
    /// is brought back to the form in which it holds vectors. That takes no gates.
    pub written: Vec<u32>,
    /// Those that are toggled onto lines with a factor: these hold the bits of its sum then.
    pub first_written: Vec<u32>,
    pub second_written: Vec<u32>,
    /// The places of the nodes whose symbols are in its event or its factors, but for its own.
    pub below: Vec<u32>,
}

/// An output, as a sum of symbols.
#[derive(Drop)]
pub struct StateOutput {
    /// Its place among the nodes of the graph of sums, behind these.
    pub name: u32,
    pub vector: Vec<u32>,
    /// The nodes without products that are toggled onto its line before it.
    pub written: Vec<u32>,
}

/// A graph of sums as it is swept. Symbols are the inputs, and then one for each node with a
/// product, in an order of these. A line holds a vector as the sum of inputs and of a node for each
/// other symbol: the one with the product, or one without that took its symbol over.
#[derive(Drop)]
pub struct StateGraph {
    pub inputs: u32,
    pub nodes: Vec<StateNode>,
    pub outputs: Vec<StateOutput>,
    /// Of each symbol how many nodes are wanted for it.
    pub weights: Table<u32>,
    /// The places at which segments begin, of which the first is 0; none where there is no node.
    pub starts: Vec<u32>,
}

impl StateNode {
    /// Whether it has no product.
    pub fn is_sum(&self) -> bool {
        self.first.is_empty()
    }
}

impl StateGraph {
    /// The node at a place of the order.
    pub fn node(&self, place: u32) -> Option<&StateNode> {
        self.nodes.get(place as usize)
    }

    /// The symbol of the node at a place of the order.
    pub fn symbol(&self, place: u32) -> u32 {
        self.inputs.saturating_add(place)
    }

    /// The place of the node that has this symbol; none for an input.
    pub fn place(&self, symbol: u32) -> Option<u32> {
        symbol.checked_sub(self.inputs)
    }

    /// Whether nodes are wanted for a vector.
    pub fn has_node(&self, vector: &[u32]) -> bool {
        vector.iter().any(|symbol| self.weights.get(*symbol) > 0)
    }

    /// How many symbols there are.
    pub fn symbols(&self) -> usize {
        self.nodes.len().saturating_add(self.inputs as usize)
    }
}
