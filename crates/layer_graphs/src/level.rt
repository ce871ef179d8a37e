// The levels of symbols.
use crate::graph::LayerGraph;
use crate::tables::highest;
use plan_tools::{Table, Work};

/// Of each symbol the most of the levels of its bits, where an input has level 0, and of those of
/// its factors and one more.
pub fn levels(work: &mut Work, graph: &LayerGraph) -> Table<u32> {
    let mut levels = Table::new(work, graph.symbols() as usize, 0);
    for symbol in graph.inputs..graph.symbols() {
        let [bits, first, second] = graph.operands(symbol);
        let below = highest(&levels, first).max(highest(&levels, second));
        let behind = u32::from(!graph.is_linear(symbol));
        let level = highest(&levels, bits).max(below.saturating_add(behind));
        levels.set(symbol, level);
    }
    levels
}
