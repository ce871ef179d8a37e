// Which lines are free.
use crate::limits::NOWHERE;
use crate::work::Work;
use std::alloc::Global;
use std::collections::VecDeque;

/// The work lines of a plan: which of them are free, and how many were ever taken. A line that has
/// been free for longest is taken first, so that parts of a circuit may run side by side.
#[derive(Drop)]
pub struct FreeLines {
    /// The free lines that were taken before, the one that has been free for longest first.
    free: VecDeque<u32>,
    /// The line behind those that were ever taken.
    behind: u32,
    /// The line behind those that may be taken.
    limit: u32,
    /// Both as they were when they were saved.
    saved_free: VecDeque<u32>,
    saved_behind: u32,
    /// How many were taken again since then.
    taken: usize,
}

impl FreeLines {
    /// All lines from `first` on below `limit`, all of them free.
    pub fn new(alloc: Global, first: u32, limit: u32) -> FreeLines {
        FreeLines {
            free: VecDeque::new(alloc),
            behind: first,
            limit,
            saved_free: VecDeque::new(alloc),
            saved_behind: first,
            taken: 0,
        }
    }

    /// The line behind those that were ever taken.
    pub fn behind(&self) -> u32 {
        self.behind
    }

    /// Whether no line is left.
    pub fn is_empty(&self) -> bool {
        self.free.is_empty() && self.behind >= self.limit
    }

    /// Takes the line that has been free for longest, or the next one that was never taken where
    /// none is. The work gives up where none is left.
    pub fn take(&mut self, work: &mut Work) -> u32 {
        if let Some(line) = self.free.pop_front() {
            self.taken = self.taken.saturating_add(1);
            return line;
        }
        let line = self.behind;
        if line >= self.limit {
            work.give_up();
            return NOWHERE;
        }
        self.behind = line + 1;
        line
    }

    /// A line is free again.
    pub fn give(&mut self, work: &mut Work, line: u32) {
        work.note(self.free.push_back(line));
    }

    /// Saves which lines are free, and which were ever taken.
    pub fn save(&mut self, work: &mut Work) {
        self.saved_behind = self.behind;
        self.taken = 0;
        if let Some(free) = work.note(self.free.clone()) {
            self.saved_free = free;
        }
    }

    /// The lines that were free when they were saved are so again, those that were taken since then
    /// behind the others, and so are those that were never taken before. Nothing is saved any more.
    pub fn reset(&mut self, work: &mut Work) {
        let taken = self.taken.min(self.saved_free.len());
        if let Some(others) = work.note(self.saved_free.split_off(taken)) {
            self.free = others;
        }
        work.note(self.free.append(&mut self.saved_free));
        work.note(self.free.extend(self.saved_behind..self.behind));
    }
}
