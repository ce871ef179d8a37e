// Which lines are free.
use plan_tools::Work;
use std::alloc::Global;

/// The free lines: those that were never taken, and behind these the others, from the one on that
/// was freed first. So a line rests before it is taken again.
#[derive(Drop)]
pub struct Free {
    /// The line behind those that were ever taken.
    behind: u32,
    limit: u32,
    /// The lines that were freed, in their order, and how many of these were taken again.
    freed: Vec<u32>,
    taken: usize,
}

impl Free {
    /// All lines from `first` on below `limit`, all of them free.
    pub fn new(alloc: Global, first: u32, limit: u32) -> Free {
        Free {
            behind: first,
            limit,
            freed: Vec::new(alloc),
            taken: 0,
        }
    }

    /// The line behind those that were ever taken.
    pub fn behind(&self) -> u32 {
        self.behind
    }

    /// Takes a line; none where none is left.
    pub fn take(&mut self) -> Option<u32> {
        if self.behind < self.limit {
            let line = self.behind;
            self.behind = line + 1;
            return Some(line);
        }
        let line = self.freed.get(self.taken).copied()?;
        self.taken = self.taken.saturating_add(1);
        Some(line)
    }

    /// A line is free again.
    pub fn give(&mut self, work: &mut Work, line: u32) {
        work.push(&mut self.freed, line);
    }
}
