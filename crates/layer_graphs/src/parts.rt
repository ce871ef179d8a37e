// Where the nodes are cut into parts.
use crate::graph::LayerGraph;
use crate::tables::{highest, raise};
use plan_tools::{Table, Work, number};

/// How many nodes are used across each node: those before it that are used at it or behind it.
#[derive(Drop)]
pub struct Widths {
    widths: Table<u32>,
    /// The symbol of the first node, and that behind the last one.
    first: u32,
    behind: u32,
}

// A node, by how many are used across it and how far it is from where a cut should be.
#[derive(Clone, Copy, PartialEq, Eq, PartialOrd, Ord)]
struct Cut {
    width: u32,
    distance: u32,
    symbol: u32,
}

impl Widths {
    /// The widths of a graph, in time linear in its sums.
    pub fn of(work: &mut Work, graph: &LayerGraph) -> Widths {
        let (first, behind) = (graph.inputs, graph.first_output());
        let last_uses = last_uses(work, graph);
        let mut ending = Table::new(work, behind as usize, 0_u32);
        let mut widths = Table::new(work, behind as usize, 0);
        let mut width: u32 = 0;
        for symbol in first..behind {
            widths.set(symbol, width);
            width = width.saturating_sub(ending.get(symbol));
            let last = last_uses.get(symbol);
            if last > symbol {
                width = width.saturating_add(1);
                ending.set(last, ending.get(last).saturating_add(1));
            }
        }
        Widths {
            widths,
            first,
            behind,
        }
    }

    /// Of each symbol its part, where the nodes in their order are cut into so many parts of about
    /// the same length: each cut is where, within a third of a part, the fewest nodes are used
    /// across it. An output is of the last part that it uses.
    pub fn parts(&self, work: &mut Work, graph: &LayerGraph, count: u32) -> Table<u32> {
        let mut parts = Table::new(work, graph.symbols() as usize, 0);
        let (mut part, mut next): (u32, u32) = (0, 1);
        let mut behind = self.start(next, count);
        for symbol in self.first..self.behind {
            if symbol >= behind && next < count {
                part = next;
                next = next.saturating_add(1);
                behind = self.start(next, count);
            }
            parts.set(symbol, part);
        }
        for output in self.behind..graph.symbols() {
            let [bits, _, _] = graph.operands(output);
            parts.set(output, highest(&parts, bits));
        }
        parts
    }

    // The best node at which a part begins, of so many.
    fn start(&self, part: u32, count: u32) -> u32 {
        let nodes = u64::from(self.behind.saturating_sub(self.first));
        let count = u64::from(count).max(1);
        let before = number((u64::from(part).saturating_mul(nodes) / count) as usize);
        let middle = self.first.saturating_add(before);
        let reach = number((nodes / count / 3) as usize);
        let mut best = Cut {
            width: u32::MAX,
            distance: 0,
            symbol: middle,
        };
        let behind = middle.saturating_add(reach).saturating_add(1);
        for symbol in middle.saturating_sub(reach)..behind.min(self.behind) {
            let cut = Cut {
                width: self.widths.get(symbol),
                distance: symbol.abs_diff(middle),
                symbol,
            };
            if cut < best {
                best = cut;
            }
        }
        best.symbol
    }
}

// Of each symbol the last node that uses it; itself where none does.
fn last_uses(work: &mut Work, graph: &LayerGraph) -> Table<u32> {
    let mut last_uses = Table::new(work, graph.symbols() as usize, 0);
    for symbol in graph.inputs..graph.first_output() {
        for operands in graph.operands(symbol) {
            raise(&mut last_uses, operands, symbol);
        }
    }
    last_uses
}
