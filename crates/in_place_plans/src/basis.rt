// The contents of lines as a basis, in which other vectors are written out.
use in_place_tasks::{add, flip, has, head_of, is_none, words_for};
use plan_tools::Work;

// A sum of contents: the sum, a symbol that no other row has, and whose contents they are.
#[derive(Drop)]
struct Row {
    vector: Vec<u64>,
    head: u32,
    lines: Vec<u64>,
}

/// The contents of lines, which are independent; the constant is left out.
#[derive(Drop)]
pub struct Basis {
    rows: Vec<Row>,
    one: u32,
    line_words: usize,
}

impl Basis {
    /// No contents.
    pub fn new(work: &Work, one: u32) -> Basis {
        Basis {
            rows: Vec::new(work.alloc),
            one,
            line_words: 0,
        }
    }

    /// Has room for so many lines.
    pub fn widen(&mut self, work: &mut Work, lines: u32) {
        let words = words_for(lines);
        if words <= self.line_words {
            return;
        }
        self.line_words = words;
        for row in self.rows.iter_mut() {
            fill(work, &mut row.lines, words);
        }
    }

    // A vector less rows, so that it has no head of theirs; the lines whose contents were added.
    fn reduced(&self, work: &mut Work, vector: &[u64]) -> Row {
        let mut left = work.copy(vector);
        if has(&left, self.one) {
            flip(&mut left, self.one);
        }
        let mut lines = work.filled(0, self.line_words);
        work.spend(self.rows.len() as u64);
        for row in &self.rows {
            if has(vector, row.head) {
                work.spend(left.len() as u64);
                add(&mut left, &row.vector);
                add(&mut lines, &row.lines);
            }
        }
        Row {
            head: head_of(&left).unwrap_or(self.one),
            vector: left,
            lines,
        }
    }

    /// Takes in the content of a line, where it is independent of the others.
    pub fn insert(&mut self, work: &mut Work, content: &[u64], line: u32) {
        let mut row = self.reduced(work, content);
        if is_none(&row.vector) {
            return;
        }
        flip(&mut row.lines, line);
        for other in self.rows.iter_mut() {
            if has(&other.vector, row.head) {
                add_row(work, other, &row);
            }
        }
        work.push(&mut self.rows, row);
    }

    /// Leaves out the content of a line.
    pub fn remove(&mut self, work: &mut Work, line: u32) {
        let mut left = Vec::new(work.alloc);
        let mut removed: Option<Row> = None;
        for row in work.take(&mut self.rows) {
            if !has(&row.lines, line) {
                work.push(&mut left, row);
            } else if let Some(first) = &removed {
                let mut other = row;
                add_row(work, &mut other, first);
                work.push(&mut left, other);
            } else {
                removed = Some(row);
            }
        }
        self.rows = left;
    }

    /// The content of one line was added to that of another.
    pub fn add(&mut self, work: &mut Work, from: u32, to: u32) {
        work.spend(self.rows.len() as u64);
        for row in self.rows.iter_mut() {
            if has(&row.lines, to) {
                flip(&mut row.lines, from);
            }
        }
    }

    /// The content of one line stands on another, which held 0.
    pub fn shift(&mut self, from: u32, to: u32) {
        for row in self.rows.iter_mut() {
            if has(&row.lines, from) {
                flip(&mut row.lines, from);
                flip(&mut row.lines, to);
            }
        }
    }

    /// The lines whose contents add up to a vector, but for the constant, if there are any.
    pub fn lines_if_any(&self, work: &mut Work, vector: &[u64]) -> Option<Vec<u64>> {
        let row = self.reduced(work, vector);
        if is_none(&row.vector) {
            Some(row.lines)
        } else {
            None
        }
    }

    /// The same. The work gives up where there are none.
    pub fn lines_of(&self, work: &mut Work, vector: &[u64]) -> Vec<u64> {
        match self.lines_if_any(work, vector) {
            Some(lines) => lines,
            None => {
                work.give_up();
                Vec::new(work.alloc)
            }
        }
    }
}

fn fill(work: &mut Work, lines: &mut Vec<u64>, words: usize) {
    for _ in lines.len()..words {
        work.push(lines, 0);
    }
}

fn add_row(work: &mut Work, row: &mut Row, other: &Row) {
    work.spend(row.vector.len() as u64);
    add(&mut row.vector, &other.vector);
    add(&mut row.lines, &other.lines);
}
