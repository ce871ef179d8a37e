// How far the parts of a graph are done.
use crate::cleaning::Clearing;
use layer_graphs::LayerGraph;
use plan_tools::{Table, Work};

/// How much of each part is left to be done.
#[derive(Drop)]
pub struct Progress<'p> {
    parts: &'p Table<u32>,
    /// Of each part how many nodes are not made.
    unmade: Table<u32>,
    /// Of each part how many are not made, and how many products are to be cleared yet.
    open: Table<u32>,
    /// The first part that is not done.
    pub first: u32,
}

impl<'p> Progress<'p> {
    /// Nothing is done yet.
    pub fn of(
        work: &mut Work,
        graph: &LayerGraph,
        clearing: &Clearing,
        parts: &'p Table<u32>,
    ) -> Progress<'p> {
        let mut unmade = Table::new(work, parts.items().len(), 0_u32);
        let mut open = Table::new(work, parts.items().len(), 0_u32);
        for symbol in graph.inputs..graph.first_output() {
            let part = parts.get(symbol);
            let is_undone = clearing.is_cleared(symbol) && !graph.is_linear(symbol);
            let steps = 1 + u32::from(is_undone);
            unmade.set(part, unmade.get(part).saturating_add(1));
            open.set(part, open.get(part).saturating_add(steps));
        }
        Progress {
            parts,
            unmade,
            open,
            first: 0,
        }
    }

    /// A node is made.
    pub fn note_made(&mut self, symbol: u32) {
        let part = self.parts.get(symbol);
        let unmade = self.unmade.get(part).saturating_sub(1);
        self.unmade.set(part, unmade);
        self.note_done(symbol);
    }

    /// A node is made, or a product cleared.
    pub fn note_done(&mut self, symbol: u32) {
        let part = self.parts.get(symbol);
        let open = self.open.get(part).saturating_sub(1);
        self.open.set(part, open);
        for _ in 0..self.open.items().len() {
            if self.open.get(self.first) > 0 {
                return;
            }
            self.first = self.first.saturating_add(1);
        }
    }

    /// How many lines a node leaves to those of the first part that is not done.
    pub fn kept_free(&self, symbol: u32) -> u32 {
        if self.parts.get(symbol) > self.first {
            self.unmade.get(self.first)
        } else {
            0
        }
    }
}
