// Vectors become rows, and sums of rows.
use crate::rows::{Layer, StateRows, Step};
use plan_tools::{Reduced, Row, Work};
use std::mem;

/// How a vector is placed as a row.
#[derive(Clone, Copy, PartialEq, Eq)]
pub enum Place {
    /// As any row.
    Plain,
    /// Its line may hold any vector: additions to it are not noted.
    Free,
    /// It has its head before rows of its layer, and stays as it is.
    First,
}

// A vector on its way to be that of a row.
#[derive(Drop)]
struct Placing {
    vector: Vec<u32>,
    to: Row,
    /// The row that is placed.
    row: Row,
    how: Place,
}

impl Placing {
    // Whether this is the row that is placed, and it is placed so.
    fn is(&self, row: Row, how: Place) -> bool {
        row == self.row && how == self.how
    }
}

impl StateRows {
    /// Places a vector as a row. Where a row has its head, one beneath has it before one of the
    /// state; of two in one layer the new one takes it where it is `First`, or shorter by more than
    /// the margin. A row that is left with nothing begins there.
    pub fn place(&mut self, work: &mut Work, row: Row, vector: Vec<u32>, how: Place) {
        let mut placing = Placing {
            vector,
            to: row,
            row,
            how,
        };
        for _ in 0..self.symbols() {
            let Some(rival) = self.echelon.rival(&placing.vector) else {
                break;
            };
            self.pass(work, &mut placing, rival);
        }
        self.settle(work, placing);
    }

    // Rids a vector of its head, which a row has.
    fn pass(&mut self, work: &mut Work, placing: &mut Placing, rival: Row) {
        let sum = self.echelon.plus(work, &placing.vector, rival);
        let takes = self.takes(placing, rival);
        let vector = mem::replace(&mut placing.vector, sum);
        if !takes {
            return self.note(work, placing, rival, placing.to);
        }
        // The vector takes the place of the rival's, to which the sum of the two goes on.
        let row = mem::replace(&mut placing.to, rival);
        let _ = self.take(work, rival);
        self.put(work, row, vector);
        self.note(work, placing, row, rival);
    }

    // Whether the vector takes the head of a row.
    fn takes(&self, placing: &Placing, rival: Row) -> bool {
        if self.is_definition(rival) {
            return false;
        }
        if self.layer(placing.to) != self.layer(rival) {
            return self.layer(placing.to) == Layer::Beneath;
        }
        let length = placing.vector.len().saturating_add(self.margin);
        placing.is(placing.to, Place::First) || length < self.vector(rival).len()
    }

    // Notes an addition, unless it is to a row that is free.
    fn note(&mut self, work: &mut Work, placing: &Placing, from: Row, to: Row) {
        if !placing.is(to, Place::Free) {
            self.push(work, Step::Add { from, to });
        }
    }

    // Puts the vector where it came to.
    fn settle(&mut self, work: &mut Work, mut placing: Placing) {
        if placing.vector.is_empty() {
            return self.push(work, Step::Begin(placing.to));
        }
        if !placing.is(placing.to, Place::First) {
            self.shorten(work, &mut placing);
        }
        self.put(work, placing.to, placing.vector);
    }

    // Adds rows to a vector for symbols behind its head, falling, where it gets shorter.
    fn shorten(&mut self, work: &mut Work, placing: &mut Placing) {
        let mut at: usize = 1;
        for _ in 0..self.symbols() {
            let Some(symbol) = placing.vector.get(at).copied() else {
                break;
            };
            match self.shorten_by(work, placing, symbol) {
                Some(row) => self.note(work, placing, row, placing.to),
                None => at = at.saturating_add(1),
            }
        }
    }

    // Adds the row that has a symbol behind the head of a vector, where the vector gets shorter. To
    // a free row only the row of that symbol alone is added.
    fn shorten_by(&self, work: &mut Work, placing: &mut Placing, symbol: u32) -> Option<Row> {
        let row = self.with_head(symbol)?;
        let is_free = placing.is(placing.to, Place::Free);
        if !self.is_read_by(row, self.layer(placing.to)) || is_free && self.vector(row).len() != 1 {
            return None;
        }
        let sum = self.echelon.plus(work, &placing.vector, row);
        if sum.len() >= placing.vector.len() {
            return None;
        }
        placing.vector = sum;
        Some(row)
    }

    /// Makes the rows beneath span a vector: by a new row, if it is not in their span yet; whether
    /// it is not. Where it is the sum of several rows and shorter than the one that has its head,
    /// it takes that row's place.
    pub fn insert(&mut self, work: &mut Work, vector: &[u32]) -> bool {
        let Reduced { left, rows } = self.reduce(work, vector, Layer::Beneath);
        if left.is_empty() {
            self.exchange(work, vector, &rows);
            return false;
        }
        let row = self.fresh_last(work);
        let vector = work.copy(vector);
        self.place(work, row, vector, Place::Free);
        true
    }

    // Puts a vector, the sum of some rows, in the place of that of the first, where it is shorter.
    fn exchange(&mut self, work: &mut Work, vector: &[u32], rows: &[Row]) {
        let Some((first, others)) = rows.split_first() else {
            return;
        };
        let is_kept = self.is_definition(*first) || others.is_empty();
        if is_kept || vector.len() >= self.vector(*first).len() {
            return;
        }
        self.add_all(work, others, *first);
        let _ = self.take(work, *first);
        let vector = work.copy(vector);
        self.put(work, *first, vector);
    }
}
