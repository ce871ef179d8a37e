// Which nodes are cleared before the end.
use crate::times::Times;
use layer_graphs::tables::raise;
use layer_graphs::{LayerGraph, Node};
use plan_tools::{Table, Work};

/// How much is cleared before the end: of each symbol its part, how many of the first parts are
/// cleaned, and how many symbols a node without a product has at most in which others are written
/// out.
#[derive(Clone, Copy)]
pub struct Plan<'p> {
    pub parts: &'p Table<u32>,
    pub cleaned: u32,
    pub left: usize,
}

/// Which nodes are cleared before the end.
#[derive(Drop)]
pub struct Clearing {
    /// Whether a symbol is.
    is_cleared: Table<bool>,
    /// Of each symbol what its line holds when it is cleared.
    lefts: Vec<Left>,
}

/// What the line of a kept node without a product holds when it is cleared, where that is short:
/// the sum of its bits, in which other such nodes are written out.
#[derive(Drop)]
pub struct Left {
    /// The symbols, falling.
    pub bits: Vec<u32>,
    /// The nodes that are written out, falling, and it itself; none where the line holds its bits.
    pub names: Vec<u32>,
}

// The most nodes that are written out in one.
const MOST_NAMES: usize = 32;

impl Clearing {
    /// What is cleared: of the parts that are cleaned all nodes that no later part uses, and kept
    /// nodes without a product whose bits are kept, which takes no Toffoli gate.
    pub fn of(work: &mut Work, graph: &LayerGraph, plan: Plan<'_>) -> Clearing {
        let are_kept = are_kept(work, graph, plan);
        let mut clearing = Clearing {
            is_cleared: Table::of(Vec::new(work.alloc), false),
            lefts: Vec::new(work.alloc),
        };
        for symbol in 0..graph.symbols() {
            let is_free = is_free(graph, &are_kept, symbol);
            let is_cleared = is_free || !are_kept.get(symbol);
            clearing.is_cleared.push(work, is_cleared);
            let mut left = Left {
                bits: Vec::new(work.alloc),
                names: Vec::new(work.alloc),
            };
            if is_free && are_kept.get(symbol) {
                clearing.write_out(work, graph, symbol, plan.left, &mut left);
            }
            work.push(&mut clearing.lefts, left);
        }
        clearing
    }

    // The bits of a node, in which nodes before it are written out, unless that makes too many.
    fn write_out(
        &self,
        work: &mut Work,
        graph: &LayerGraph,
        symbol: u32,
        most: usize,
        left: &mut Left,
    ) {
        let [bits, _, _] = graph.operands(symbol);
        left.bits = work.copy(bits);
        left.names = work.copy(&[symbol]);
        for bit in bits {
            if let Some(inner) = self.left(*bit) {
                let others = work.sum_of(&left.bits, &[*bit]);
                left.bits = work.sum_of(&others, &inner.bits);
                left.names = work.sum_of(&left.names, &inner.names);
            }
        }
        if left.bits.len() > most || left.names.len() > MOST_NAMES {
            left.names.clear();
        }
    }

    /// Keeps what could be cleared at the end alone, where nodes are made at their latest times and
    /// cleared as soon as what uses them is done.
    pub fn keep_late(&mut self, work: &mut Work, graph: &LayerGraph, latest: &Times) {
        let mut offs = Table::new(work, graph.symbols() as usize, 0);
        for symbol in (graph.inputs..graph.symbols()).rev() {
            let behind = u32::from(!graph.is_linear(symbol));
            let on = latest.on.get(symbol);
            let off = offs.get(symbol).max(on.saturating_add(1));
            let is_late = off.saturating_add(behind) > latest.depth.saturating_add(1);
            if is_late {
                self.is_cleared.set(symbol, false);
            }
            let last = if self.is_cleared(symbol) { off } else { on };
            for operands in self.operands(graph, symbol) {
                raise(&mut offs, operands, last.saturating_add(behind));
            }
            let [bits, _, _] = graph.operands(symbol);
            raise(&mut offs, bits, on.saturating_add(behind));
        }
    }

    /// Whether a symbol is cleared before the end.
    pub fn is_cleared(&self, symbol: u32) -> bool {
        self.is_cleared.get(symbol)
    }

    /// What the line of a node holds when it is cleared, where nodes are written out in its bits.
    pub fn left(&self, symbol: u32) -> Option<&Left> {
        match self.lefts.get(symbol as usize) {
            Some(left) if !left.names.is_empty() => Some(left),
            _ => None,
        }
    }

    /// What clears a node: its bits, or what its line holds then, and its factors.
    pub fn operands<'c>(&'c self, graph: &'c LayerGraph, symbol: u32) -> [&'c [u32]; 3] {
        let [bits, first, second] = graph.operands(symbol);
        match self.left(symbol) {
            Some(left) => [&left.bits, first, second],
            None => [bits, first, second],
        }
    }
}

// Whether each symbol is kept: it is of a part that is not cleaned, or a later part uses it, or it
// has no line of its own.
fn are_kept(work: &mut Work, graph: &LayerGraph, plan: Plan<'_>) -> Table<bool> {
    let Plan { parts, cleaned, .. } = plan;
    let mut are_kept = Table::of(Vec::new(work.alloc), true);
    for symbol in 0..graph.symbols() {
        let is_kept = match graph.node(symbol) {
            Some(Node { onto: None, .. }) => parts.get(symbol) >= cleaned,
            _ => true,
        };
        are_kept.push(work, is_kept);
    }
    for symbol in graph.inputs..graph.symbols() {
        for operands in graph.operands(symbol) {
            keep_before(&mut are_kept, parts, operands, parts.get(symbol));
        }
    }
    are_kept
}

// Keeps those of some symbols that are of parts before one.
fn keep_before(are_kept: &mut Table<bool>, parts: &Table<u32>, symbols: &[u32], part: u32) {
    for symbol in symbols {
        if parts.get(*symbol) < part {
            are_kept.set(*symbol, true);
        }
    }
}

// Whether a symbol is a node without a product whose bits are all kept.
fn is_free(graph: &LayerGraph, are_kept: &Table<bool>, symbol: u32) -> bool {
    let Some(
        Node {
            bits,
            factors: None,
            onto: None,
            ..
        },
    ) = graph.node(symbol)
    else {
        return false;
    };
    bits.iter().all(|bit| are_kept.get(*bit))
}
