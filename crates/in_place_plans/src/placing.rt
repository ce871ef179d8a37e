// The outputs come onto their lines.
use crate::lines::Lines;
use in_place_tasks::{add, has, is_none};
use plan_tools::{NOWHERE, Work, list_at, number};

// A copy of one line onto another.
#[derive(Clone, Copy)]
struct Copied {
    from: u32,
    to: u32,
}

impl Lines {
    /// Brings each output onto its line, where the lines hold a basis of them.
    pub fn place(&mut self, work: &mut Work, outputs: &[Vec<u64>]) {
        let count = number(outputs.len());
        for line in count..number(self.contents.len()) {
            self.bring_down(work, line, outputs);
        }
        let mut rows = self.rows(work, outputs);
        let copies = self.eliminated(work, &mut rows);
        for copied in copies.iter().rev() {
            self.copy(work, copied.from, copied.to);
        }
        let mut line: u32 = 0;
        for output in outputs {
            self.mend(work, line, output);
            line = line.saturating_add(1);
        }
    }

    // Moves what a line behind those of the outputs holds to one of theirs that is free.
    fn bring_down(&mut self, work: &mut Work, line: u32, outputs: &[Vec<u64>]) {
        if is_none(list_at(&self.contents, line)) {
            return;
        }
        let mut free = NOWHERE;
        for place in 0..number(outputs.len()) {
            if free == NOWHERE && is_none(list_at(&self.contents, place)) {
                free = place;
            }
        }
        if free == NOWHERE {
            work.give_up();
            return;
        }
        self.shift(work, line, free);
    }

    // Of each output the lines whose contents add up to it.
    fn rows(&self, work: &mut Work, outputs: &[Vec<u64>]) -> Vec<Vec<u64>> {
        let mut rows = Vec::new(work.alloc);
        for output in outputs {
            let row = self.basis.lines_of(work, output);
            work.push(&mut rows, row);
        }
        rows
    }

    // The additions of rows that leave each line that holds something alone in its row.
    fn eliminated(&self, work: &mut Work, rows: &mut Vec<Vec<u64>>) -> Vec<Copied> {
        let mut copies = Vec::new(work.alloc);
        for line in 0..number(rows.len()) {
            if is_none(list_at(&self.contents, line)) {
                continue;
            }
            if !has(list_at(rows, line), line) {
                let from = with_symbol(rows, line);
                add_row(work, rows, &mut copies, from, line);
            }
            for other in 0..number(rows.len()) {
                if other != line && has(list_at(rows, other), line) {
                    add_row(work, rows, &mut copies, line, other);
                }
            }
        }
        copies
    }
}

// The last row that has a symbol.
fn with_symbol(rows: &[Vec<u64>], symbol: u32) -> u32 {
    let mut found = NOWHERE;
    for place in 0..number(rows.len()) {
        if has(list_at(rows, place), symbol) {
            found = place;
        }
    }
    found
}

fn add_row(
    work: &mut Work,
    rows: &mut Vec<Vec<u64>>,
    copies: &mut Vec<Copied>,
    from: u32,
    to: u32,
) {
    let added = work.copy(list_at(rows, from));
    if let Some(row) = rows.get_mut(to as usize) {
        add(row, &added);
    }
    work.spend(added.len() as u64);
    work.push(copies, Copied { from, to });
}
