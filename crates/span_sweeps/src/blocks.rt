// Blocks: ranges of nodes that are undone but for what stays wanted of them.
use crate::events::{End, Event, RowVector};
use crate::sweeper::Sweeper;
use plan_tools::{Row, Work};
use span_graphs::{Node, Range, SpanGraph};
use std::alloc::Global;

/// The block in which a sweep is.
#[derive(Drop)]
pub struct Block {
    /// The place of its first node in the order, and the symbol of that node.
    from: u32,
    first: u32,
    nodes: Vec<BlockNode>,
    /// The rows that stay of it.
    rows: Vec<Row>,
    /// The rows that are wanted behind it and have none of its nodes: they are made of the rows at
    /// its beginning.
    idle: Vec<RowVector>,
    /// The place of its end among the events.
    close: usize,
    /// The nodes without products that were written out in the vectors of rows.
    written: Vec<(Row, u32)>,
}

// What a block knows of a node.
#[derive(Drop)]
struct BlockNode {
    /// Whether a row has it, or a node that is wanted.
    is_reached: bool,
    /// Whether it is in a factor, or in the bits of such a node: it is undone at the end of the
    /// block.
    is_inner: bool,
    /// The rows that have its products, where it is not inner.
    targets: Vec<Row>,
}

impl Block {
    // Nothing of a range, whose first node has this symbol.
    fn new(work: &mut Work, range: Range, first: u32) -> Block {
        let mut nodes = Vec::new(work.alloc);
        for _ in range.from..range.to {
            let node = BlockNode {
                is_reached: false,
                is_inner: false,
                targets: Vec::new(work.alloc),
            };
            work.push(&mut nodes, node);
        }
        Block {
            from: range.from,
            first,
            nodes,
            rows: Vec::new(work.alloc),
            idle: Vec::new(work.alloc),
            close: 0,
            written: Vec::new(work.alloc),
        }
    }

    // Its node that has a symbol, if there is one.
    fn node_of(&mut self, symbol: u32) -> Option<&mut BlockNode> {
        let own = symbol.checked_sub(self.first)?;
        self.nodes.get_mut(own as usize)
    }

    // Whether a symbol is that of one of its nodes, and this is not inner.
    fn is_outer(&self, symbol: u32) -> bool {
        let Some(own) = symbol.checked_sub(self.first) else {
            return false;
        };
        match self.nodes.get(own as usize) {
            Some(node) => !node.is_inner,
            None => false,
        }
    }

    // Takes the rows that have the products of its node with a symbol.
    fn take_targets(&mut self, alloc: Global, symbol: u32) -> Vec<Row> {
        match self.node_of(symbol) {
            Some(node) => std::mem::replace(&mut node.targets, Vec::new(alloc)),
            None => Vec::new(alloc),
        }
    }

    // Notes rows that stay of it, and marks the nodes that their vectors have.
    fn note_rows(&mut self, work: &mut Work, rows: &[RowVector]) {
        for RowVector { row, vector } in rows {
            self.mark(vector, false);
            work.push(&mut self.rows, *row);
        }
    }

    // Marks what its nodes want that are wanted themselves, from the last on.
    fn mark_inner(&mut self, graph: &SpanGraph, range: Range) {
        for place in (range.from..range.to).rev() {
            if let Some(node) = graph.node(place) {
                self.mark_wants(node, graph.symbol(place));
            }
        }
    }

    // Marks what a node with this symbol wants, where it is wanted itself: a final one by outputs.
    fn mark_wants(&mut self, node: &Node, symbol: u32) {
        let Some(own) = self.node_of(symbol) else {
            return;
        };
        let (is_reached, is_inner) = (own.is_reached, own.is_inner);
        let has_targets = !node.targets.is_empty();
        let is_wanted = if node.is_final {
            has_targets
        } else {
            is_reached
        };
        if !is_wanted {
            return;
        }
        for product in &node.products {
            self.mark(&product.first, true);
            self.mark(&product.second, true);
        }
        self.mark(node.bits(), is_inner);
    }

    // Marks its nodes that have these symbols.
    fn mark(&mut self, symbols: &[u32], is_inner: bool) {
        for symbol in symbols {
            if let Some(node) = self.node_of(*symbol) {
                node.is_reached = true;
                node.is_inner |= is_inner;
            }
        }
    }

    // Writes the nodes that are not inner out in the vector of a row: their products go to the row.
    fn write_out(&mut self, work: &mut Work, graph: &SpanGraph, row: Row, vector: &mut Vec<u32>) {
        let mut behind: usize = 0;
        for _ in 0..graph.symbols() {
            let Some(symbol) = vector.get(behind).copied() else {
                break;
            };
            if self.is_outer(symbol) {
                self.write_node(work, graph, row, symbol, vector);
            } else {
                behind = behind.saturating_add(1);
            }
        }
    }

    // Writes the node with a symbol out in the vector of a row.
    fn write_node(
        &mut self,
        work: &mut Work,
        graph: &SpanGraph,
        row: Row,
        symbol: u32,
        vector: &mut Vec<u32>,
    ) {
        let place = self.from.saturating_add(symbol.saturating_sub(self.first));
        let Some(node) = graph.node(place) else {
            return work.give_up();
        };
        *vector = work.sum_of(vector, &node.event);
        if node.is_linear() {
            work.push(&mut self.written, (row, place));
        } else if let Some(node) = self.node_of(symbol) {
            work.push(&mut node.targets, row);
        }
    }
}

impl Sweeper<'_> {
    /// Back over the end of a block, which is in no other one. The rows that have a node of it stay
    /// of it: they are taken out, and what their vectors are the sums of is inserted. The other
    /// rows are taken out up to its beginning.
    pub fn back_over_close(&mut self, range: Range) {
        if self.block.is_some() {
            return self.work.give_up();
        }
        let (from, to) = (self.graph.symbol(range.from), self.graph.symbol(range.to));
        let mut rows = self.take_rows(from, to);
        let mut block = Block::new(&mut self.work, range, from);
        block.idle = self.take_rows(0, from);
        block.close = self.events.len();
        block.note_rows(&mut self.work, &rows);
        block.mark_inner(self.graph, range);
        self.insert_written(&mut block, &mut rows);
        let ends = self.ends_of(&rows);
        let written = self.work.take(&mut block.written);
        self.block = Some(block);
        let renewals = Vec::new(self.work.alloc);
        self.push(Event::Close {
            ends,
            written,
            renewals,
        });
    }

    // Writes nodes out in the vectors of rows, and inserts what is left of these.
    fn insert_written(&mut self, block: &mut Block, rows: &mut [RowVector]) {
        for RowVector { row, vector } in rows.iter_mut() {
            block.write_out(&mut self.work, self.graph, *row, vector);
            self.rows.insert(&mut self.work, vector);
        }
    }

    // The sums of rows that some rows take.
    fn ends_of(&mut self, rows: &[RowVector]) -> Vec<End> {
        let mut ends = Vec::new(self.work.alloc);
        for RowVector { row, vector } in rows {
            let end = self.end(*row, vector);
            self.work.push(&mut ends, end);
        }
        ends
    }

    /// Back over the beginning of a block: its rows are on new lines there.
    pub fn back_over_open(&mut self) {
        let Some(block) = self.block.take() else {
            return self.work.give_up();
        };
        let found = self.renewals_of(&block.idle);
        if let Some(Event::Close { renewals, .. }) = self.events.get_mut(block.close) {
            *renewals = found;
        }
        self.push(Event::Open { rows: block.rows });
    }

    // Idle rows as sums of those at the beginning of a block, from the greatest head down. The first
    // row of a sum has the head of its vector, so it is no other sum's first, and in no later sum.
    fn renewals_of(&mut self, idle: &[RowVector]) -> Vec<End> {
        let mut renewals = Vec::new(self.work.alloc);
        for RowVector { row, vector } in idle.iter().rev() {
            self.rows.span(&mut self.work, vector);
            let renewal = self.end(*row, vector);
            self.work.push(&mut renewals, renewal);
        }
        renewals
    }

    /// Back over the toggle of a node that is not undone at the end of the block.
    pub fn back_over_part(&mut self, place: u32, node: &Node) {
        let symbol = self.graph.symbol(place);
        let rows = match &mut self.block {
            Some(block) => block.take_targets(self.work.alloc, symbol),
            None => return,
        };
        if rows.is_empty() {
            return;
        }
        let factors = self.make_factors(node);
        let toggle = self.toggle(place, Vec::new(self.work.alloc), factors);
        self.push(Event::Part { toggle, rows });
    }

    /// Whether a node is in a block, and not undone at its end.
    pub fn is_part(&self, place: u32, node: &Node) -> bool {
        match &self.block {
            Some(block) => !node.is_final && block.is_outer(self.graph.symbol(place)),
            None => false,
        }
    }
}
