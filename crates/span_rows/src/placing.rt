// Vectors become rows, and sums of rows.
use crate::rows::{Add, Rows};
use plan_tools::{Reduced, Row, Work};
use std::mem;

/// By how many symbols a vector is to be shorter than the row with its head to take that head.
const SHORTER: usize = 2;

// A vector on its way to be that of a row.
#[derive(Drop)]
struct Placing {
    vector: Vec<u32>,
    to: Row,
    /// The row to which additions are not noted: its line may hold any vector.
    free: Option<Row>,
    /// The additions to the lines of rows so far.
    adds: Vec<Add>,
}

impl Placing {
    fn is_free(&self) -> bool {
        self.free == Some(self.to)
    }

    // Notes the addition of a row.
    fn note(&mut self, work: &mut Work, from: Row) {
        if !self.is_free() {
            work.push(&mut self.adds, Add { from, to: self.to });
        }
    }
}

impl Rows {
    /// Places a vector that is not in the span of the other rows as a row; the additions to the
    /// lines of rows. Of two vectors with one head the new one takes it where it is shorter by more
    /// than two symbols.
    pub fn place(&mut self, work: &mut Work, row: Row, vector: Vec<u32>) -> Vec<Add> {
        self.place_free(work, row, vector, None)
    }

    // The same. Additions to the row `free` are not noted.
    fn place_free(
        &mut self,
        work: &mut Work,
        row: Row,
        vector: Vec<u32>,
        free: Option<Row>,
    ) -> Vec<Add> {
        let mut placing = Placing {
            vector,
            to: row,
            free,
            adds: Vec::new(work.alloc),
        };
        for _ in 0..self.echelon.symbols() {
            let Some(rival) = self.echelon.rival(&placing.vector) else {
                break;
            };
            let from = self.pass(work, &mut placing, rival);
            placing.note(work, from);
        }
        self.shorten(work, &mut placing);
        self.put(work, placing.to, placing.vector);
        placing.adds
    }

    // Rids a vector of its head, which a row has; the row that is added.
    fn pass(&mut self, work: &mut Work, placing: &mut Placing, rival: Row) -> Row {
        let sum = self.echelon.plus(work, &placing.vector, rival);
        let vector = mem::replace(&mut placing.vector, sum);
        let gives_way = vector.len().saturating_add(SHORTER) < self.echelon.vector(rival).len();
        if !gives_way {
            return rival;
        }
        // The vector takes the place of the rival's, to which the sum of the two goes on.
        let row = mem::replace(&mut placing.to, rival);
        let _ = self.take(work, rival);
        self.put(work, row, vector);
        row
    }

    // Adds rows to a vector for symbols behind its head, falling, and notes them.
    fn shorten(&mut self, work: &mut Work, placing: &mut Placing) {
        let mut place: usize = 1;
        for _ in 0..self.echelon.symbols() {
            let Some(symbol) = placing.vector.get(place).copied() else {
                break;
            };
            match self.shorten_by(work, placing, symbol) {
                Some(row) => placing.note(work, row),
                None => place = place.saturating_add(1),
            }
        }
    }

    // Adds the row that has a symbol behind the head of a vector, where the vector gets shorter, or
    // the symbol is a node's without products, which then is not wanted any more. To a free row
    // only the row of that symbol alone is added.
    fn shorten_by(&self, work: &mut Work, placing: &mut Placing, symbol: u32) -> Option<Row> {
        let row = self.echelon.with_head(symbol)?;
        if placing.is_free() && self.echelon.vector(row).len() != 1 {
            return None;
        }
        let sum = self.echelon.plus(work, &placing.vector, row);
        if sum.len() >= placing.vector.len() && !self.linear.get(symbol) {
            return None;
        }
        placing.vector = sum;
        Some(row)
    }

    /// Nodes that are to have lines of their own get rows with no other symbol.
    pub fn force(&mut self, work: &mut Work, vector: &[u32]) {
        for symbol in vector {
            if self.is_forced(*symbol) && self.echelon.with_head(*symbol).is_none() {
                let row = self.fresh_inserted(work);
                let alone = work.copy(&[*symbol]);
                self.put(work, row, alone);
            }
        }
    }

    /// Makes the rows span a vector, and changes none of them.
    pub fn span(&mut self, work: &mut Work, vector: &[u32]) {
        let Reduced { left, .. } = self.reduced(work, vector);
        if !left.is_empty() {
            let row = self.fresh(work);
            self.put(work, row, left);
        }
    }

    // A new row, which is out, and is noted.
    fn fresh_inserted(&mut self, work: &mut Work) -> Row {
        let row = self.fresh(work);
        work.push(&mut self.insertions.new, row);
        row
    }

    /// Makes the rows span a vector: by a new row, if it is not in their span yet. Where it is the
    /// sum of several rows and shorter than the one that has its head, it takes that row's place.
    pub fn insert(&mut self, work: &mut Work, vector: &[u32]) {
        self.force(work, vector);
        let reduced = self.reduced(work, vector);
        if reduced.left.is_empty() {
            return self.exchange(work, vector, &reduced.rows);
        }
        let row = self.fresh_inserted(work);
        let vector = work.copy(vector);
        let adds = self.place_free(work, row, vector, Some(row));
        work.append(&mut self.insertions.adds, &adds);
    }

    // Puts a vector, the sum of some rows, in the place of that of the first, where it is shorter.
    fn exchange(&mut self, work: &mut Work, vector: &[u32], rows: &[Row]) {
        let Some((first, others)) = rows.split_first() else {
            return;
        };
        let is_shorter = vector.len() < self.echelon.vector(*first).len();
        if others.is_empty() || !is_shorter {
            return;
        }
        for from in others {
            let add = Add {
                from: *from,
                to: *first,
            };
            work.push(&mut self.insertions.adds, add);
        }
        let _ = self.take(work, *first);
        let vector = work.copy(vector);
        self.put(work, *first, vector);
    }
}
