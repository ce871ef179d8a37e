// What planners go by.
use crate::weight::Weight;
use bit_sums::Sum;
use dependency_graph::Base;
use plan_tools::{Table, Work, list_at, number};
use sum_graph::SumGraph;

/// The nodes of a graph, as planners see them. Some have a home, the line of an output: an output
/// lends its line to the greatest node of its sum, where that is a bit of the sum and stands in no
/// product of it, and no output before lends its line to it.
#[derive(Drop)]
pub struct Nodes {
    /// How many nodes, inputs and outputs there are.
    pub count: u32,
    pub inputs: u32,
    pub outputs: u32,
    /// Of each node the output on whose line it stands.
    homes: Table<Option<u32>>,
    /// Of each output the node that stands on its line.
    guests: Table<Option<u32>>,
    /// Of each node those that are held where it is toggled, rising.
    operands: Vec<Vec<u32>>,
    /// Of each node the last one that uses it.
    last_uses: Table<u32>,
    /// What the toggle of each node comes to.
    weights: Table<Weight>,
    /// What the sums of the outputs come to whose lines are no home.
    pub copies: Weight,
}

impl Nodes {
    /// The nodes of a graph, with homes or without, in time near linear in the terms of its sums.
    pub fn of(work: &mut Work, graph: &SumGraph, with_homes: bool) -> Nodes {
        let (count, outputs) = (graph.nodes() as usize, graph.outputs().len());
        let mut nodes = Nodes {
            count: graph.nodes(),
            inputs: graph.inputs(),
            outputs: number(outputs),
            homes: Table::new(work, count, None),
            guests: Table::new(work, outputs, None),
            operands: Vec::new(work.alloc),
            last_uses: Table::new(work, count, 0),
            weights: Table::new(work, count, Weight::NONE),
            copies: Weight::NONE,
        };
        if with_homes {
            nodes.settle(graph);
        }
        nodes.add_nodes(work, graph);
        nodes.add_ends(work, graph);
        nodes
    }

    // Settles nodes on the lines of outputs.
    fn settle(&mut self, graph: &SumGraph) {
        let mut output: u32 = 0;
        for sum in graph.outputs() {
            if let Some(node) = guest_of(sum)
                && self.homes.get(node).is_none()
            {
                self.homes.set(node, Some(output));
                self.guests.set(output, Some(node));
            }
            output = output.saturating_add(1);
        }
    }

    // Adds what the nodes come to, and which of them each uses.
    fn add_nodes(&mut self, work: &mut Work, graph: &SumGraph) {
        for node in 0..graph.nodes() {
            let sum = graph.node(node);
            let home = self.home_sum(graph, node);
            let operands = operands_of(work, node, sum, home);
            self.weights.set(node, weight_of(sum, home));
            self.last_uses.set(node, node);
            self.use_all(&operands, node);
            work.push(&mut self.operands, operands);
        }
    }

    // The sum of the output on whose line a node stands.
    fn home_sum<'g>(&self, graph: &'g SumGraph, node: u32) -> Option<&'g Sum> {
        graph.outputs().get(self.home(node)? as usize)
    }

    // Adds what is held up to the end, the nodes that have a home and those of the other outputs,
    // and what these outputs come to.
    fn add_ends(&mut self, work: &mut Work, graph: &SumGraph) {
        let mut ends = Vec::new(work.alloc);
        let mut output: u32 = 0;
        for sum in graph.outputs() {
            match self.guest(output) {
                Some(node) => work.push(&mut ends, node),
                None => {
                    push_nodes(work, &mut ends, sum);
                    self.copies = self.copies.plus(Weight::of(sum));
                }
            }
            output = output.saturating_add(1);
        }
        self.use_all(&ends, self.count);
    }

    fn use_all(&mut self, nodes: &[u32], user: u32) {
        for node in nodes {
            self.last_uses.set(*node, user);
        }
    }

    /// The number of inputs and outputs.
    pub fn ports(&self) -> u32 {
        self.inputs.saturating_add(self.outputs)
    }

    /// The output on whose line a node stands.
    pub fn home(&self, node: u32) -> Option<u32> {
        self.homes.get(node)
    }

    /// The node that stands on an output's line.
    pub fn guest(&self, output: u32) -> Option<u32> {
        self.guests.get(output)
    }

    /// The nodes that are held where this one is toggled, rising.
    pub fn operands(&self, node: u32) -> &[u32] {
        list_at(&self.operands, node)
    }

    /// What the toggle of a node comes to, with what stands for it in the reversed part.
    pub fn weight(&self, node: u32) -> Weight {
        self.weights.get(node)
    }

    /// The Toffoli gates that any plan has: each node is toggled once.
    pub fn least_toffoli(&self) -> u64 {
        let mut least = self.copies;
        for weight in self.weights.items() {
            least = least.plus(*weight);
        }
        least.toffoli
    }

    /// The last node that uses this one; the number of nodes where it is held up to the end, and
    /// itself where neither.
    pub fn last_use(&self, node: u32) -> u32 {
        self.last_uses.get(node)
    }
}

// The greatest node of a sum, where it is one of its bits and stands in no product.
fn guest_of(sum: &Sum) -> Option<u32> {
    let bit = greatest_in(sum.bits());
    for product in sum.products() {
        if greatest_in(product.first()) >= bit || greatest_in(product.second()) >= bit {
            return None;
        }
    }
    bit.checked_sub(1)
}

// The number behind the greatest node among some bases; 0 where there is none.
fn greatest_in(bases: &[Base]) -> u32 {
    let mut behind: u32 = 0;
    for base in bases {
        if let Base::Node(node) = *base {
            behind = behind.max(node.saturating_add(1));
        }
    }
    behind
}

// The nodes that are held where a node is toggled, rising: those of its sum, and those of the rest
// of the sum that has it on its line.
fn operands_of(work: &mut Work, node: u32, sum: &Sum, home: Option<&Sum>) -> Vec<u32> {
    let mut operands = Vec::new(work.alloc);
    push_nodes(work, &mut operands, sum);
    if let Some(whole) = home {
        push_nodes(work, &mut operands, whole);
    }
    operands.sort_unstable();
    operands.dedup();
    if operands.last().copied() == Some(node) {
        operands.pop();
    }
    operands
}

// What a node's toggle comes to, with what stands for it in the reversed part.
fn weight_of(sum: &Sum, home: Option<&Sum>) -> Weight {
    let there = Weight::of(sum);
    match home {
        Some(whole) => there.plus(Weight::of(whole).without_bit()),
        None => there.plus(there),
    }
}

// Appends the nodes of which a sum is made; one may stand twice.
fn push_nodes(work: &mut Work, nodes: &mut Vec<u32>, sum: &Sum) {
    for product in sum.products() {
        push_among(work, nodes, product.first());
        push_among(work, nodes, product.second());
    }
    push_among(work, nodes, sum.bits());
}

// Appends the nodes among some bases.
fn push_among(work: &mut Work, nodes: &mut Vec<u32>, bases: &[Base]) {
    for base in bases {
        if let Base::Node(node) = *base {
            work.push(nodes, node);
        }
    }
}
