// What is proposed.
use crate::sums::SymbolSum;
use plan_tools::Work;
use std::alloc::Global;

/// A graph of sums: symbols are its inputs, its nodes, and then its outputs.
#[derive(Drop)]
pub struct Sums {
    pub inputs: u32,
    pub nodes: Vec<SymbolSum>,
    pub outputs: Vec<SymbolSum>,
}

/// Nodes that are opened, and the sums of symbols that their factors are sums of: the greatest
/// symbol of each is in none behind it.
#[derive(Drop)]
pub struct Opened {
    pub symbols: Vec<u32>,
    pub sums: Vec<Vec<u32>>,
}

impl Opened {
    /// Nothing is opened.
    pub fn new(alloc: Global) -> Opened {
        Opened {
            symbols: Vec::new(alloc),
            sums: Vec::new(alloc),
        }
    }

    /// Opens a node, behind those that were opened before.
    pub fn open(&mut self, work: &mut Work, symbol: u32) {
        if !self.symbols.contains(&symbol) {
            work.push(&mut self.symbols, symbol);
        }
    }

    /// Takes a sum in, unless the sums before it make it up.
    pub fn add_sum(&mut self, work: &mut Work, symbols: &[u32]) {
        let mut left = work.copy(symbols);
        for sum in &self.sums {
            if let Some(head) = sum.first()
                && left.contains(head)
            {
                left = work.sum_of(&left, sum);
            }
        }
        if !left.is_empty() {
            work.push(&mut self.sums, left);
        }
    }

    /// The same nodes and sums.
    pub fn copy(&self, work: &mut Work) -> Opened {
        let mut sums = Vec::new(work.alloc);
        for sum in &self.sums {
            let sum = work.copy(sum);
            work.push(&mut sums, sum);
        }
        Opened {
            symbols: work.copy(&self.symbols),
            sums,
        }
    }
}

/// A change of one node's sum, which keeps its value.
#[derive(Drop)]
pub enum Step {
    /// What makes another node 0 together with it is added: its symbol, and its sum.
    Definition {
        target: u32,
        node: u32,
    },
    /// A sum is added that vanishes by a window.
    Window {
        target: u32,
        change: SymbolSum,
        opened: Opened,
    },
}

impl Step {
    /// The same step.
    pub fn copy(&self, work: &mut Work) -> Step {
        match self {
            Step::Definition { target, node } => Step::Definition {
                target: *target,
                node: *node,
            },
            Step::Window {
                target,
                change,
                opened,
            } => Step::Window {
                target: *target,
                change: change.copy(work),
                opened: opened.copy(work),
            },
        }
    }
}

/// Changes of a graph of sums, one after another. Symbols are its inputs, its nodes, its outputs,
/// and then more nodes; targets and nodes are counted without the inputs.
#[derive(Drop)]
pub struct Proposal {
    /// The sums of those nodes.
    pub more: Vec<SymbolSum>,
    pub steps: Vec<Step>,
    /// Of each node that which it came from.
    pub keys: Vec<u32>,
}
