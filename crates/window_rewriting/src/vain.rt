// Functions for which programs were looked for in vain, so that they are not looked for again.
use plan_tools::Work;
use std::alloc::Global;
use std::collections::BTreeSet;

/// What was looked for in vain, as marks.
#[derive(Drop)]
pub struct Vain {
    marks: BTreeSet<u64>,
}

impl Vain {
    /// Nothing.
    pub fn new(alloc: Global) -> Vain {
        Vain {
            marks: BTreeSet::new(alloc),
        }
    }

    /// Whether it was looked for before.
    pub fn has(&self, mark: u64) -> bool {
        self.marks.contains(&mark)
    }

    /// Notes what was looked for.
    pub fn add(&mut self, work: &mut Work, mark: u64) {
        work.note(self.marks.insert(mark));
    }
}

/// The mark of a function that is to be made of words by at most so many products.
pub fn mark_of(words: &[u64], goal: u64, most: usize, may_part: bool) -> u64 {
    let mut mark = mixed(most as u64, u64::from(may_part));
    mark = mixed(mark, goal);
    for word in words {
        mark = mixed(mark, *word);
    }
    mark
}

fn mixed(mark: u64, word: u64) -> u64 {
    let turned = (mark.rotate_left(23) ^ word).wrapping_mul(0x9e37_79b9_7f4a_7c15);
    turned ^ turned >> 29
}
