// Rows in echelon form, with what changed them.
use plan_tools::{Echelon, Reduced, Row, Table, Work};
use std::alloc::Global;
use std::mem;

/// An addition of one row to another: a CX gate between their lines.
#[derive(Clone, Copy)]
pub struct Add {
    pub from: Row,
    pub to: Row,
}

/// What was done so that rows span some vectors: the additions, from the last to the first as
/// gates, and the new rows.
#[derive(Drop)]
pub struct Insertions {
    pub adds: Vec<Add>,
    pub new: Vec<Row>,
}

impl Insertions {
    /// Nothing was done.
    pub fn none(alloc: Global) -> Insertions {
        Insertions {
            adds: Vec::new(alloc),
            new: Vec::new(alloc),
        }
    }
}

// What a row held before it changed; nothing where it was out.
#[derive(Drop)]
struct Change {
    row: Row,
    before: Vec<u32>,
}

/// Rows of vectors with different heads, their greatest symbols. A row without a vector is out. A
/// planner keeps each row's vector on a line of its own.
#[derive(Drop)]
pub struct Rows {
    pub(crate) echelon: Echelon,
    /// Of each symbol, whether it is that of a node without products.
    pub(crate) linear: Table<bool>,
    /// Of each symbol, whether it is to have a row of its own wherever it is wanted.
    forced: Table<bool>,
    /// The changes of rows, since the last call of `begin_changes`.
    changes: Option<Vec<Change>>,
    pub(crate) insertions: Insertions,
}

impl Rows {
    /// No rows, over so many symbols as `linear` has.
    pub fn new(work: &mut Work, linear: Vec<bool>, forced: Vec<bool>) -> Rows {
        Rows {
            echelon: Echelon::new(work, linear.len()),
            linear: Table::of(linear, false),
            forced: Table::of(forced, false),
            changes: None,
            insertions: Insertions::none(work.alloc),
        }
    }

    /// How many rows have a vector: the dimension of their span.
    pub fn rank(&self) -> u32 {
        self.echelon.rank()
    }

    /// How many rows were made.
    pub fn made(&self) -> usize {
        self.echelon.made()
    }

    /// The row whose head is this symbol, if there is one.
    pub fn with_head(&self, symbol: u32) -> Option<Row> {
        self.echelon.with_head(symbol)
    }

    /// Whether this symbol is to have a row of its own.
    pub fn is_forced(&self, symbol: u32) -> bool {
        self.forced.get(symbol)
    }

    /// Adds rows to a vector until its greatest symbol is no row's head.
    pub fn reduced(&self, work: &mut Work, vector: &[u32]) -> Reduced {
        self.echelon.reduced(work, vector)
    }

    /// Whether a vector is in the span of the rows.
    pub fn spans(&self, work: &mut Work, vector: &[u32]) -> bool {
        self.reduced(work, vector).left.is_empty()
    }

    /// The rows that sum to a vector. The work gives up where it is not in their span.
    pub fn rows_of(&self, work: &mut Work, vector: &[u32]) -> Vec<Row> {
        let Reduced { left, rows } = self.reduced(work, vector);
        if !left.is_empty() {
            work.give_up();
        }
        rows
    }

    /// A new row, which is out.
    pub fn fresh(&mut self, work: &mut Work) -> Row {
        self.echelon.fresh(work)
    }

    /// Takes a row out, and gives its vector.
    pub fn take(&mut self, work: &mut Work, row: Row) -> Vec<u32> {
        let vector = self.echelon.take(work, row);
        self.note_change(work, row, &vector);
        vector
    }

    /// Puts a vector into a row that is out. Its head is that of no other row.
    pub fn put(&mut self, work: &mut Work, row: Row, vector: Vec<u32>) {
        self.note_change(work, row, &[]);
        self.echelon.put(work, row, vector);
    }

    // Notes what a row holds before it changes, where changes are noted.
    fn note_change(&mut self, work: &mut Work, row: Row, vector: &[u32]) {
        if let Some(changes) = &mut self.changes {
            let before = work.copy(vector);
            work.push(changes, Change { row, before });
        }
    }

    /// From here on changes of rows are noted, so that `undo_changes` takes them back.
    pub fn begin_changes(&mut self, alloc: Global) {
        self.changes = Some(Vec::new(alloc));
    }

    /// The changes stay, and are noted no more.
    pub fn keep_changes(&mut self) {
        self.changes = None;
    }

    /// Takes the changes since `begin_changes` back. Rows that were made since then are out.
    pub fn undo_changes(&mut self, work: &mut Work) {
        let Some(changes) = self.changes.take() else {
            return;
        };
        for Change { row, before } in changes.into_iter().rev() {
            if before.is_empty() {
                let _ = self.echelon.take(work, row);
            } else {
                self.echelon.put(work, row, before);
            }
        }
    }

    /// What insertions did so far is of no matter.
    pub fn clear_insertions(&mut self) {
        self.insertions.adds.clear();
        self.insertions.new.clear();
    }

    /// What insertions did so far.
    pub fn take_insertions(&mut self, alloc: Global) -> Insertions {
        mem::replace(&mut self.insertions, Insertions::none(alloc))
    }
}
