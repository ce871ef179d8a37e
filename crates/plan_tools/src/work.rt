// Work that keeps its first refusal.
use crate::stop::Stop;
use revc_base::WantOfMemory;
use std::alloc::Global;
use std::mem;

/// The work of a planner: where its memory comes from, how many units of it were spent, and why it
/// stopped. What a unit is, the planner says. No call fails: where memory is refused or too much is
/// spent, the first such refusal is kept, and a list that the call makes is shorter than it should
/// be, or empty. So whoever hands on what was made with it asks `finish`.
#[derive(Drop)]
pub struct Work {
    pub alloc: Global,
    most: u64,
    spent: u64,
    stop: Option<Stop>,
}

impl Work {
    /// No work was done yet, of at most so many units.
    pub fn new(alloc: Global, most: u64) -> Work {
        Work {
            alloc,
            most,
            spent: 0,
            stop: None,
        }
    }

    /// What was made, where nothing was refused.
    pub fn finish<T: Drop>(&self, made: T) -> Result<T, Stop> {
        match self.stop {
            None => Ok(made),
            Some(stop) => Err(stop),
        }
    }

    /// Whether something was refused: what was made since then is of no use.
    pub fn is_stopped(&self) -> bool {
        self.stop.is_some()
    }

    /// Keeps why it stopped, where nothing was refused before.
    pub fn stop(&mut self, stop: Stop) {
        if self.stop.is_none() {
            self.stop = Some(stop);
        }
    }

    /// Stops without a plan.
    pub fn give_up(&mut self) {
        self.stop(Stop::GaveUp);
    }

    /// The units that were spent.
    pub fn spent(&self) -> u64 {
        self.spent
    }

    /// Spends so many units, and gives up where these are too many.
    pub fn spend(&mut self, units: u64) {
        self.spent = self.spent.saturating_add(units);
        if self.spent > self.most {
            self.give_up();
        }
    }

    /// A part of the work, of at most so many units and no more than are left, which `join` takes
    /// in again.
    pub fn part(&self, most: u64) -> Work {
        let left = self.most.saturating_sub(self.spent);
        Work {
            alloc: self.alloc,
            most: most.min(left),
            spent: 0,
            stop: self.stop,
        }
    }

    /// Takes a part of the work in: what that spent, and what it was refused.
    pub fn join(&mut self, part: &Work) {
        self.spend(part.spent);
        if let Some(stop) = part.stop {
            self.stop(stop);
        }
    }

    /// What a call of another library made, which takes memory; none where that was refused.
    pub fn note<T: Drop, M: WantOfMemory>(&mut self, made: Result<T, M>) -> Option<T> {
        match made {
            Ok(made) => Some(made),
            Err(refused) => {
                self.stop(Stop::from(refused));
                None
            }
        }
    }

    /// Appends an item.
    pub fn push<T: Drop>(&mut self, list: &mut Vec<T>, item: T) {
        if let Err(refused) = list.push(item) {
            self.stop(Stop::from(refused));
        }
    }

    /// Appends copies of items.
    pub fn append<T: Copy>(&mut self, list: &mut Vec<T>, items: &[T]) {
        if let Err(refused) = list.extend_from_slice(items) {
            self.stop(Stop::from(refused));
        }
    }

    /// A list of these items.
    pub fn copy<T: Copy>(&mut self, items: &[T]) -> Vec<T> {
        let mut list = Vec::new(self.alloc);
        self.append(&mut list, items);
        list
    }

    /// A list of so many equal items.
    pub fn filled<T: Copy>(&mut self, item: T, count: usize) -> Vec<T> {
        match vec![in self.alloc; item; count] {
            Ok(list) => list,
            Err(refused) => {
                self.stop(Stop::from(refused));
                Vec::new(self.alloc)
            }
        }
    }

    /// A list of so many empty lists.
    pub fn lists<T: Drop>(&mut self, count: usize) -> Vec<Vec<T>> {
        let mut lists = Vec::new(self.alloc);
        for _ in 0..count {
            self.push(&mut lists, Vec::new(self.alloc));
        }
        lists
    }

    /// The items of a list, which is empty then.
    pub fn take<T>(&self, list: &mut Vec<T>) -> Vec<T> {
        mem::replace(list, Vec::new(self.alloc))
    }
}
