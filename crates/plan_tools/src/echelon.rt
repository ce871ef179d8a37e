// Vectors over the field of two elements in echelon form, as a basis of what they span.
use crate::table::{Table, list_at, number, put};
use crate::work::Work;
use std::mem;

/// The place of a row.
pub type Row = u32;

/// The most symbols that rows may have together.
const MOST_HELD: usize = 20_000_000;

/// Rows of vectors. A vector is a sum of symbols, the falling list of them, and its head is the
/// greatest one. No two rows have the same head. A row without a vector is out.
#[derive(Drop)]
pub struct Echelon {
    /// Of each symbol the row whose head it is.
    heads: Table<Option<Row>>,
    vectors: Vec<Vec<u32>>,
    /// How many rows have a vector.
    rank: u32,
    /// The symbols that the rows have together.
    held: usize,
}

/// A vector less the rows of whose heads it was rid: `left` begins with a symbol that is no head.
#[derive(Drop)]
pub struct Reduced {
    pub left: Vec<u32>,
    pub rows: Vec<Row>,
}

impl Echelon {
    /// No rows, over so many symbols.
    pub fn new(work: &mut Work, symbols: usize) -> Echelon {
        Echelon {
            heads: Table::new(work, symbols, None),
            vectors: Vec::new(work.alloc),
            rank: 0,
            held: 0,
        }
    }

    /// How many rows have a vector: the dimension of their span.
    pub fn rank(&self) -> u32 {
        self.rank
    }

    /// How many rows were made.
    pub fn made(&self) -> usize {
        self.vectors.len()
    }

    /// How many symbols there are.
    pub fn symbols(&self) -> usize {
        self.heads.items().len()
    }

    /// The vector of a row; empty where it is out.
    pub fn vector(&self, row: Row) -> &[u32] {
        list_at(&self.vectors, row)
    }

    /// The row whose head is a symbol.
    pub fn with_head(&self, symbol: u32) -> Option<Row> {
        self.heads.get(symbol)
    }

    /// The row that has the head of a vector.
    pub fn rival(&self, vector: &[u32]) -> Option<Row> {
        self.with_head(*vector.first()?)
    }

    /// A new row, which is out.
    pub fn fresh(&mut self, work: &mut Work) -> Row {
        let row = number(self.vectors.len());
        work.push(&mut self.vectors, Vec::new(work.alloc));
        row
    }

    /// Puts a vector into a row that is out. The work gives up where its head is that of another
    /// row, or rows have too many symbols.
    pub fn put(&mut self, work: &mut Work, row: Row, vector: Vec<u32>) {
        self.rank = self.rank.saturating_add(1);
        self.held = self.held.saturating_add(vector.len());
        match vector.first() {
            Some(head) if self.held <= MOST_HELD && self.with_head(*head).is_none() => {
                self.heads.set(*head, Some(row));
            }
            _ => work.give_up(),
        }
        put(&mut self.vectors, row, vector);
    }

    /// Takes a row out, and gives its vector. The work gives up where it is out.
    pub fn take(&mut self, work: &mut Work, row: Row) -> Vec<u32> {
        let mut vector = Vec::new(work.alloc);
        if let Some(held) = self.vectors.get_mut(row as usize) {
            mem::swap(held, &mut vector);
        }
        self.rank = self.rank.saturating_sub(1);
        self.held = self.held.saturating_sub(vector.len());
        match vector.first() {
            Some(head) => self.heads.set(*head, None),
            None => work.give_up(),
        }
        vector
    }

    /// The sum of a vector and that of a row: the symbols of both are spent.
    pub fn plus(&self, work: &mut Work, vector: &[u32], row: Row) -> Vec<u32> {
        let other = self.vector(row);
        work.spend(vector.len().saturating_add(other.len()) as u64);
        if work.is_stopped() {
            return Vec::new(work.alloc);
        }
        work.sum_of(vector, other)
    }

    /// Adds rows to a vector until its greatest symbol is no row's head.
    pub fn reduced(&self, work: &mut Work, vector: &[u32]) -> Reduced {
        let mut left = work.copy(vector);
        let mut rows = Vec::new(work.alloc);
        for _ in 0..self.symbols() {
            let Some(row) = self.rival(&left) else {
                break;
            };
            work.push(&mut rows, row);
            left = self.plus(work, &left, row);
        }
        Reduced { left, rows }
    }
}
