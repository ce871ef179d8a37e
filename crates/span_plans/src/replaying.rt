// The moves of what a sweep found: forward, the copies to the outputs, and back.
use line_moves::{Moves, Writing};
use plan_tools::{FreeLines, NOWHERE, Row, Stop, Table, Work};
use span_graphs::SpanGraph;
use span_rows::Add;
use span_sweeps::{End, Event, Sweep, Toggle};
use std::alloc::Global;

/// The work lines that there may be.
#[derive(Clone, Copy)]
pub struct WorkLines {
    /// How many lines of inputs and outputs there are before them.
    pub ports: u32,
    /// How many they may be.
    pub room: u32,
}

// Moves that are not undone on a way back, but have others in their place: copies of lines to one,
// or none.
#[derive(Drop)]
struct Replacement {
    from: usize,
    to: usize,
    lines: Vec<u32>,
    onto: u32,
}

// A replay.
#[derive(Drop)]
struct Replay<'g> {
    work: Work,
    graph: &'g SpanGraph,
    /// The line of each row.
    rows: Table<u32>,
    free: FreeLines,
    writing: Writing,
    /// What is replaced on the way back.
    replaced: Vec<Replacement>,
    /// The first move of the block that is open, and those of its moves that stay at its end.
    block: Option<usize>,
    stay: Vec<Replacement>,
}

/// The moves of what a sweep found.
pub fn moves_of(
    alloc: Global,
    graph: &SpanGraph,
    sweep: &Sweep,
    lines: WorkLines,
) -> Result<Moves, Stop> {
    let limit = lines.ports.saturating_add(lines.room);
    let mut work = Work::new(alloc, u64::MAX);
    let mut replay = Replay {
        graph,
        rows: Table::new(&mut work, sweep.rows, NOWHERE),
        free: FreeLines::new(alloc, lines.ports, limit),
        writing: Writing::new(alloc, limit),
        replaced: Vec::new(alloc),
        block: None,
        stay: Vec::new(alloc),
        work,
    };
    replay.play_all(sweep);
    replay.work.finish(())?;
    let used = replay.free.behind().saturating_sub(lines.ports);
    let writing = replay.writing;
    writing.moves.finish(lines.ports, used)
}

impl Replay<'_> {
    fn play_all(&mut self, sweep: &Sweep) {
        self.begin(sweep);
        for event in &sweep.events {
            if self.work.is_stopped() || self.writing.moves.is_stopped() {
                return;
            }
            self.play(event);
        }
        let behind = self.writing.moves.len();
        for end in &sweep.ends {
            let onto = self.output_line(end.onto);
            self.copy_sum(&end.rows, onto);
        }
        let replaced = self.work.take(&mut self.replaced);
        self.undo_others(&replaced, 0, behind);
        self.name_outputs();
    }

    fn output_line(&self, output: u32) -> u32 {
        self.graph.inputs.saturating_add(output)
    }

    // The rows of the beginning on the lines of inputs. Their heads fall, so each adds inputs that
    // are still alone.
    fn begin(&mut self, sweep: &Sweep) {
        for first in &sweep.first {
            if let Some((head, others)) = first.vector.split_first() {
                self.rows.set(first.row, *head);
                self.writing.moves.copies(others, *head);
            }
        }
    }

    fn play(&mut self, event: &Event) {
        match event {
            Event::On {
                toggle,
                row,
                is_fresh,
                rest,
            } => {
                if *is_fresh {
                    let line = self.fresh_line(toggle.node);
                    self.rows.set(*row, line);
                }
                self.toggle_between(toggle, *row, rest.as_ref());
            }
            Event::Off { toggle, row } => {
                self.toggle_between(toggle, *row, None);
                self.free.give(&mut self.work, self.rows.get(*row));
            }
            Event::Final { toggle } => self.play_final(toggle),
            Event::Open { rows } => self.open(rows),
            Event::Part { toggle, rows } => {
                let lines = self.lines_in_order(rows);
                self.toggle_onto(toggle, &lines);
                self.add(&toggle.after);
            }
            Event::Close {
                ends,
                written,
                renewals,
            } => {
                self.close(ends, written);
                self.renew(renewals);
            }
        }
    }

    // A line for a node: that of the output where it has its home, or a work line.
    fn fresh_line(&mut self, place: u32) -> u32 {
        if let Some(node) = self.graph.node(place) {
            if let Some(output) = node.home {
                return self.output_line(output);
            }
        }
        self.free.take(&mut self.work)
    }

    // Toggles a node onto the line of a row, between its additions. On the way back the rows `rest`
    // are added in its place, if there are any.
    fn toggle_between(&mut self, toggle: &Toggle, row: Row, rest: Option<&Vec<Row>>) {
        let onto = self.rows.get(row);
        self.add(&toggle.before);
        let from = self.writing.moves.len();
        self.toggle(toggle, onto, rest.is_none());
        if let Some(rest) = rest {
            self.replace(from, rest, onto);
        }
        self.add(&toggle.after);
    }

    // A final node goes onto the lines of its outputs, once for all.
    fn play_final(&mut self, toggle: &Toggle) {
        let from = self.writing.moves.len();
        let mut lines = Vec::new(self.work.alloc);
        if let Some(node) = self.graph.node(toggle.node) {
            for output in &node.targets {
                let line = self.output_line(*output);
                self.work.push(&mut lines, line);
            }
        }
        self.toggle_onto(toggle, &lines);
        self.replace(from, &[], NOWHERE);
        self.add(&toggle.after);
    }

    // A node goes onto the first line, and from there onto the others. That stays at the end of a
    // block; what is noted so outside of one is forgotten where one begins.
    fn toggle_onto(&mut self, toggle: &Toggle, lines: &[u32]) {
        let from = self.writing.moves.len();
        let Some((onto, others)) = lines.split_first() else {
            return self.work.give_up();
        };
        self.copy_to_all(*onto, others);
        self.toggle(toggle, *onto, false);
        self.copy_to_all(*onto, others);
        let stays = Replacement {
            from,
            to: self.writing.moves.len(),
            lines: Vec::new(self.work.alloc),
            onto: NOWHERE,
        };
        self.work.push(&mut self.stay, stays);
    }

    fn copy_to_all(&mut self, from: u32, lines: &[u32]) {
        for line in lines {
            self.writing.moves.copy(from, *line);
        }
    }

    // A block begins: lines for its rows, and whatever comes behind these is undone at its end.
    fn open(&mut self, rows: &[Row]) {
        for row in rows {
            let line = self.free.take(&mut self.work);
            self.rows.set(*row, line);
        }
        self.free.save(&mut self.work);
        self.stay.clear();
        self.block = Some(self.writing.moves.len());
    }

    // A block ends: its rows take sums of rows, and its moves are undone but for those that stay.
    fn close(&mut self, ends: &[End], written: &[(Row, u32)]) {
        let behind = self.writing.moves.len();
        for end in ends {
            let onto = self.rows.get(end.onto);
            self.copy_sum(&end.rows, onto);
        }
        for (row, place) in written {
            let onto = self.rows.get(*row);
            self.name_node(*place, onto);
        }
        let Some(first) = self.block.take() else {
            return self.work.give_up();
        };
        let stay = self.work.take(&mut self.stay);
        self.undo_others(&stay, first, behind);
        self.free.reset(&mut self.work);
    }

    // Behind a block rows go on, on the lines of rows that were there at its beginning.
    fn renew(&mut self, renewals: &[End]) {
        for renewal in renewals {
            if let Some((first, others)) = renewal.rows.split_first() {
                let line = self.rows.get(*first);
                self.copy_sum(others, line);
                self.rows.set(renewal.onto, line);
            }
        }
    }

    // The moves from `first` on that end before `behind` once more, from the last to the first, but
    // for those that have others in their place.
    fn undo_others(&mut self, all: &[Replacement], first: usize, behind: usize) {
        let mut behind = behind;
        for other in all.iter().rev() {
            self.undo(other.to, behind);
            self.writing.moves.copies(&other.lines, other.onto);
            behind = other.from;
        }
        self.undo(first, behind);
    }

    // Moves of a range once more, from the last to the first.
    fn undo(&mut self, from: usize, to: usize) {
        for place in (from..to).rev() {
            self.writing.moves.again(place);
        }
    }

    // On the way back, the lines of these rows are added to `onto` in the place of all moves since
    // `from`.
    fn replace(&mut self, from: usize, rows: &[Row], onto: u32) {
        let replacement = Replacement {
            from,
            to: self.writing.moves.len(),
            lines: self.lines(rows),
            onto,
        };
        self.work.push(&mut self.replaced, replacement);
    }

    // The lines of rows, in their order.
    fn lines_in_order(&mut self, rows: &[Row]) -> Vec<u32> {
        let mut lines = Vec::new(self.work.alloc);
        for row in rows {
            self.work.push(&mut lines, self.rows.get(*row));
        }
        lines
    }

    // The lines of rows, rising.
    fn lines(&mut self, rows: &[Row]) -> Vec<u32> {
        let mut lines = self.lines_in_order(rows);
        lines.sort_unstable();
        lines
    }

    // The lines of rows onto one.
    fn copy_sum(&mut self, rows: &[Row], onto: u32) {
        let lines = self.lines(rows);
        self.writing.moves.copies(&lines, onto);
    }

    fn add(&mut self, adds: &[Add]) {
        for add in adds {
            let (from, to) = (self.rows.get(add.from), self.rows.get(add.to));
            self.writing.moves.copy(from, to);
        }
    }

    // Toggles a node. Lines that only its factors want may keep what is gathered on them
    // (`leaves`).
    fn toggle(&mut self, toggle: &Toggle, onto: u32, leaves: bool) {
        let Some(node) = self.graph.node(toggle.node) else {
            return self.work.give_up();
        };
        for (factors, product) in toggle.factors.iter().zip(&node.products) {
            let (first, second) = (self.lines(&factors.first), self.lines(&factors.second));
            let first = self.writing.factor(&first, &product.first_written);
            let second = self.writing.factor(&second, &product.second_written);
            self.writing.product(first, second);
        }
        let own = self.own_lines(toggle, leaves);
        self.writing.toggle(node.name, onto, &own);
    }

    // The lines of the rows that are new behind a toggle of one product, and in no addition; none
    // where they may not keep anything.
    fn own_lines(&mut self, toggle: &Toggle, leaves: bool) -> Vec<u32> {
        let mut lines = Vec::new(self.work.alloc);
        if leaves && toggle.factors.len() == 1 {
            for row in &toggle.new {
                if !is_added(&toggle.after, *row) {
                    self.work.push(&mut lines, self.rows.get(*row));
                }
            }
        }
        lines
    }

    // The node at a place, which has no products, takes the place of its bits on a line. That takes
    // no gates.
    fn name_node(&mut self, place: u32, onto: u32) {
        if let Some(node) = self.graph.node(place) {
            self.writing.moves.name(node.name, onto);
        }
    }

    // Each output's line holds the bits of its sum, with nodes written out: these are written in
    // again, and the sum gets its name. That takes no gates.
    fn name_outputs(&mut self) {
        let mut onto = self.graph.inputs;
        for output in &self.graph.outputs {
            for place in &output.written {
                self.name_node(*place, onto);
            }
            if let Some(name) = output.name {
                self.writing.moves.name(name, onto);
            }
            onto = onto.saturating_add(1);
        }
    }
}

// Whether a row is in one of these additions.
fn is_added(adds: &[Add], row: Row) -> bool {
    for add in adds {
        if add.from == row || add.to == row {
            return true;
        }
    }
    false
}
