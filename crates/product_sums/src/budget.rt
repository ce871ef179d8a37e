// What a table may take.
ghost use Rattle.std.specs.Prelude.{◌≡◌, ◌+◌, ◌^◌, ◌<◌, true};
ghost use Rattle.product_sums.specs.Limits.{LimitsAre};
ghost use Rattle.product_sums.specs.inside.Spending.{StopsPastLimit};

use crate::ProductsFault;

// The most words that are held, and the most steps, each a word or two that is read.
const MOST_WORDS: u64 = 1 << 26;

const MOST_STEPS: u64 = 1 << 34;

// From a limit on, so many atoms are made for each known product, and so many besides.
const ATOMS_FOR_EACH: u32 = 4;

const ATOMS_BESIDES: u32 = 4096;

/// The limits are these numbers. The function does nothing: its contract is the law.
pub fn limits_are()
    ensures { LimitsAre }
{}

// Words held and steps taken, and how many atoms there may be.
#[derive(Clone, Copy)]
pub struct Budget {
    words: u64,
    steps: u64,
    most_atoms: u32,
}

impl Budget {
    // Nothing is held or taken, and atoms have no limit but their numbers.
    pub fn new() -> Budget {
        Budget {
            words: 0,
            steps: 0,
            most_atoms: u32::MAX,
        }
    }

    // Takes some steps, and one more.
    pub fn spend(&mut self, steps: usize) -> Result<(), ProductsFault>
        ensures { StopsPastLimit result self.new }
    {
        self.steps = self.steps.saturating_add(steps as u64).saturating_add(1);
        if self.steps > MOST_STEPS || self.words > MOST_WORDS {
            return Err(ProductsFault::Limit);
        }
        Ok(())
    }

    pub fn hold(&mut self, words: usize) {
        self.words = self.words.saturating_add(words as u64);
    }

    pub fn let_go(&mut self, words: usize) {
        self.words = self.words.saturating_sub(words as u64);
    }

    // Where so many atoms are there and so many products are known, some more may be made.
    pub fn limit_atoms(&mut self, atoms: u32, known: usize) {
        let known = u32::try_from(known).unwrap_or(u32::MAX);
        let more = known
            .saturating_mul(ATOMS_FOR_EACH)
            .saturating_add(ATOMS_BESIDES);
        self.most_atoms = atoms.saturating_add(more);
    }

    // Whether another atom may be made where there are so many.
    pub fn has_room(&self, atoms: u32) -> bool
        ensures { result ≡ true → atoms + 1 < 2 ^ 32 }
    {
        atoms < self.most_atoms
    }
}
