// A sweep on its way, and what its turns share.
use crate::blocks::Block;
use crate::events::{End, Event, Factors, RowVector, Toggle};
use plan_tools::{Row, Work};
use span_graphs::SpanGraph;
use span_rows::{Add, Insertions, Rows};

/// A sweep on its way from the end of a schedule.
#[derive(Drop)]
pub struct Sweeper<'g> {
    pub graph: &'g SpanGraph,
    pub work: Work,
    /// What is wanted there.
    pub rows: Rows,
    /// The block in which it is.
    pub block: Option<Block>,
    /// Those of its turns so far, the last turn's first.
    pub events: Vec<Event>,
    /// How many additions, and rows of factors, the events note.
    pub noted: usize,
}

impl Sweeper<'_> {
    /// At the end of a schedule, with these rows.
    pub fn new(graph: &SpanGraph, work: Work, rows: Rows) -> Sweeper<'_> {
        Sweeper {
            graph,
            rows,
            block: None,
            events: Vec::new(work.alloc),
            noted: 0,
            work,
        }
    }

    /// A toggle of a node; what was inserted for its factors is undone behind it, the last first.
    pub fn toggle(&mut self, node: u32, before: Vec<Add>, factors: Vec<Factors>) -> Toggle {
        let Insertions { adds, new } = self.rows.take_insertions(self.work.alloc);
        let mut after = adds;
        after.reverse();
        let toggle = Toggle {
            node,
            before,
            factors,
            after,
            new,
        };
        self.noted = self.noted.saturating_add(toggle.size());
        toggle
    }

    /// Appends an event.
    pub fn push(&mut self, event: Event) {
        self.work.push(&mut self.events, event);
    }

    /// Takes the rows out whose heads are symbols of a range, from the least on.
    pub fn take_rows(&mut self, from: u32, to: u32) -> Vec<RowVector> {
        let mut taken = Vec::new(self.work.alloc);
        for symbol in from..to {
            if let Some(row) = self.rows.with_head(symbol) {
                let vector = self.rows.take(&mut self.work, row);
                self.work.push(&mut taken, RowVector { row, vector });
            }
        }
        taken
    }

    /// What is copied to a line: a vector, as the sum of rows.
    pub fn end(&mut self, onto: u32, vector: &[u32]) -> End {
        End {
            onto,
            rows: self.rows.rows_of(&mut self.work, vector),
        }
    }

    /// The additions of rows to one.
    pub fn additions(&mut self, rows: &[Row], to: Row) -> Vec<Add> {
        let mut adds = Vec::new(self.work.alloc);
        for from in rows {
            self.work.push(&mut adds, Add { from: *from, to });
        }
        adds
    }
}
