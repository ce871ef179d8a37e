// The turns of a sweep, each of which goes back over one toggle.
use crate::events::{Event, Factors};
use crate::sweeper::Sweeper;
use plan_tools::Row;
use span_graphs::Node;
use span_rows::Add;

impl Sweeper<'_> {
    /// Back over the turn by which a node is made.
    pub fn back_over_on(&mut self, place: u32) {
        let Some(node) = self.graph.node(place) else {
            return self.work.give_up();
        };
        if self.is_part(place, node) {
            return self.back_over_part(place, node);
        }
        if node.is_final {
            return self.back_over_final(place, node);
        }
        if let Some(row) = self.rows.with_head(self.graph.symbol(place)) {
            self.back_over_row(place, node, row);
        }
    }

    // Makes the rows span the factors of a node.
    fn insert_factors(&mut self, node: &Node) {
        for product in &node.products {
            self.rows.insert(&mut self.work, &product.first);
            self.rows.insert(&mut self.work, &product.second);
        }
    }

    // The factors of a node, as sums of rows.
    fn factors_of(&mut self, node: &Node) -> Vec<Factors> {
        let mut all = Vec::new(self.work.alloc);
        for product in &node.products {
            let factors = Factors {
                first: self.rows.rows_of(&mut self.work, &product.first),
                second: self.rows.rows_of(&mut self.work, &product.second),
            };
            self.work.push(&mut all, factors);
        }
        all
    }

    /// Makes the factors of a toggle, where nothing is to be added before them.
    pub fn make_factors(&mut self, node: &Node) -> Vec<Factors> {
        self.insert_factors(node);
        self.factors_of(node)
    }

    // Back over the toggle of a final node.
    fn back_over_final(&mut self, place: u32, node: &Node) {
        if node.targets.is_empty() || node.is_linear() {
            return;
        }
        let factors = self.make_factors(node);
        let toggle = self.toggle(place, Vec::new(self.work.alloc), factors);
        self.push(Event::Final { toggle });
    }

    // Back over the toggle of a node onto the line of the row whose head it is.
    fn back_over_row(&mut self, place: u32, node: &Node, row: Row) {
        let vector = self.rows.take(&mut self.work, row);
        // What the line held before the toggle. It is placed when all else that the node wants is.
        let held = self.work.sum_of(&vector, &node.event);
        self.insert_factors(node);
        let rest = self.insert_rest(node);
        if self.rows.is_forced(self.graph.symbol(place)) {
            self.rows.insert(&mut self.work, node.bits());
        }
        self.rows.force(&mut self.work, &held);
        let factors = self.factors_of(node);
        let rest = self.rows_of_rest(rest);
        let (before, is_fresh) = self.place_held(node, row, held);
        let toggle = self.toggle(place, before, factors);
        self.push(Event::On {
            toggle,
            row,
            is_fresh,
            rest,
        });
    }

    // Makes the rows span what is added to the line of an output behind the node that stays there.
    fn insert_rest(&mut self, node: &Node) -> Option<Vec<u32>> {
        let Some(output) = self.graph.outputs.get(node.home? as usize) else {
            self.work.give_up();
            return None;
        };
        let rest = self.work.sum_of(&output.vector, &node.event);
        self.rows.insert(&mut self.work, &rest);
        Some(rest)
    }

    fn rows_of_rest(&mut self, rest: Option<Vec<u32>>) -> Option<Vec<Row>> {
        Some(self.rows.rows_of(&mut self.work, &rest?))
    }

    // Places what a line held before the toggle of a node: nothing new where other rows sum to it,
    // since then the line may be a new one, but not that of an output. The additions, in the order
    // of the gates, and whether the line is new.
    fn place_held(&mut self, node: &Node, row: Row, held: Vec<u32>) -> (Vec<Add>, bool) {
        let reduced = self.rows.reduced(&mut self.work, &held);
        let is_fresh = reduced.left.is_empty();
        if !is_fresh && node.home.is_some() {
            self.work.give_up();
        }
        let mut before = if is_fresh {
            self.additions(&reduced.rows, row)
        } else {
            self.rows.place(&mut self.work, row, held)
        };
        before.reverse();
        (before, is_fresh)
    }

    /// Back over the toggle that takes a node off its line; none where the rows span it anyway, or
    /// it is not undone at the end of the block.
    pub fn back_over_off(&mut self, place: u32) {
        let Some(node) = self.graph.node(place) else {
            return self.work.give_up();
        };
        if self.is_part(place, node) {
            return;
        }
        if self.rows.is_forced(self.graph.symbol(place)) {
            return self.back_over_copy(place, node);
        }
        self.rows.begin_changes(self.work.alloc);
        if self.spans_anyway(node) {
            return self.rows.undo_changes(&mut self.work);
        }
        self.rows.keep_changes();
        let factors = self.factors_of(node);
        let row = self.rows.fresh(&mut self.work);
        let event = self.work.copy(&node.event);
        let mut before = self.rows.place(&mut self.work, row, event);
        before.reverse();
        self.push_off(place, row, before, factors);
    }

    // Makes the rows span the factors of a node, unless they span the node; whether they then do.
    fn spans_anyway(&mut self, node: &Node) -> bool {
        self.rows.force(&mut self.work, &node.event);
        if self.rows.spans(&mut self.work, &node.event) {
            return true;
        }
        self.insert_factors(node);
        self.rows.spans(&mut self.work, &node.event)
    }

    // Appends that a node is taken off the line of a row.
    fn push_off(&mut self, place: u32, row: Row, before: Vec<Add>, factors: Vec<Factors>) {
        let toggle = self.toggle(place, before, factors);
        self.push(Event::Off { toggle, row });
    }

    // Back over the same toggle of a node without products that has to have a line of its own.
    fn back_over_copy(&mut self, place: u32, node: &Node) {
        let symbol = self.graph.symbol(place);
        if self.rows.with_head(symbol).is_some() {
            return;
        }
        self.rows.insert(&mut self.work, node.bits());
        let row = self.rows.fresh(&mut self.work);
        let alone = self.work.copy(&[symbol]);
        self.rows.put(&mut self.work, row, alone);
        let sources = self.rows.rows_of(&mut self.work, node.bits());
        let before = self.additions(&sources, row);
        self.push_off(place, row, before, Vec::new(self.work.alloc));
    }
}
