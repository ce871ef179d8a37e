// Which products go straight onto the lines of outputs.
use crate::graph::{LayerGraph, Onto};
use crate::level::levels;
use crate::tables::count;
use plan_tools::{Table, Work};

// A product that may go straight onto the line of an output.
#[derive(Clone, Copy, PartialEq, Eq, PartialOrd, Ord)]
struct Candidate {
    level: u32,
    symbol: u32,
}

// What is known of the symbols of a graph.
#[derive(Drop)]
struct Known {
    levels: Table<u32>,
    /// Of each symbol in how many sums of nodes and outputs it is.
    uses: Table<u32>,
}

/// Has products that are in one output alone go straight onto its line, one a layer, from the
/// highest level on, where there is a layer for it; their bits are bits of the output then.
pub fn straighten(work: &mut Work, graph: &mut LayerGraph) {
    let known = Known {
        levels: levels(work, graph),
        uses: uses(work, graph),
    };
    for output in graph.first_output()..graph.symbols() {
        let left = known.straighten(work, graph, output);
        if let Some(node) = graph.node_mut(output) {
            node.bits = left;
        }
    }
}

impl Known {
    // Has products of an output go onto its line, those of the highest levels first; what is left
    // of its bits.
    fn straighten(&self, work: &mut Work, graph: &mut LayerGraph, output: u32) -> Vec<u32> {
        let [bits, _, _] = graph.operands(output);
        let mut left = work.copy(bits);
        let candidates = self.candidates(work, graph, &left);
        let output = output.saturating_sub(graph.first_output());
        let mut layer = self.levels.items().iter().copied().max().unwrap_or(0);
        for Candidate { level, symbol } in candidates.iter().rev() {
            if layer >= *level
                && let Some(node) = graph.node_mut(*symbol)
            {
                node.onto = Some(Onto { output, layer });
                left = work.sum_of(&left, &[*symbol]);
                left = work.sum_of(&left, &node.bits);
                node.bits.clear();
                layer = layer.saturating_sub(1);
            }
        }
        left
    }

    // The products among some bits that nothing else has in it, by their levels.
    fn candidates(&self, work: &mut Work, graph: &LayerGraph, bits: &[u32]) -> Vec<Candidate> {
        let mut candidates = Vec::new(work.alloc);
        for symbol in bits {
            let is_node = *symbol >= graph.inputs && !graph.is_linear(*symbol);
            if is_node && self.uses.get(*symbol) == 1 {
                let level = self.levels.get(*symbol);
                let symbol = *symbol;
                work.push(&mut candidates, Candidate { level, symbol });
            }
        }
        candidates.sort_unstable();
        candidates
    }
}

// Of each symbol in how many sums of nodes and outputs it is.
fn uses(work: &mut Work, graph: &LayerGraph) -> Table<u32> {
    let mut uses = Table::new(work, graph.symbols() as usize, 0);
    for symbol in graph.inputs..graph.symbols() {
        for operands in graph.operands(symbol) {
            count(&mut uses, operands);
        }
    }
    uses
}
