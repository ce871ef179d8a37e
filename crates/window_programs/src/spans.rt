// What words of 64 rows span, as vectors over the field of two elements.

/// The values of six variables in 64 rows.
pub const VARIABLES: [u64; 6] = [
    0xaaaa_aaaa_aaaa_aaaa,
    0xcccc_cccc_cccc_cccc,
    0xf0f0_f0f0_f0f0_f0f0,
    0xff00_ff00_ff00_ff00,
    0xffff_0000_ffff_0000,
    0xffff_ffff_0000_0000,
];

/// The bit of the constant in a mask.
pub const ONE: u32 = 1 << 31;

// The most rows of a span.
const MOST_ROWS: usize = 48;

/// A basis of what some words span. Each row is without the lowest bits of those before it.
#[derive(Clone, Copy)]
pub struct Span {
    rows: [u64; MOST_ROWS],
    count: usize,
}

impl Span {
    /// The span of nothing.
    pub fn new() -> Span {
        Span {
            rows: [0; MOST_ROWS],
            count: 0,
        }
    }

    /// The span of the constant 1 and of some words.
    pub fn of(words: &[u64]) -> Span {
        let mut span = Span::new();
        span.insert(u64::MAX);
        for word in words {
            span.insert(*word);
        }
        span
    }

    /// A word less rows: 0 where the rows span it.
    pub fn reduced(&self, word: u64) -> u64 {
        let mut word = word;
        for row in self.rows.iter().take(self.count) {
            if word & row & row.wrapping_neg() != 0 {
                word ^= *row;
            }
        }
        word
    }

    /// Takes a word in; whether it was not spanned before.
    pub fn insert(&mut self, word: u64) -> bool {
        let left = self.reduced(word);
        if left == 0 || self.count >= MOST_ROWS {
            return false;
        }
        self.rows[self.count] = left;
        self.count += 1;
        true
    }
}

/// The mask of a place; none of one that no mask has.
pub fn bit(place: usize) -> u32 {
    if place < 31 { 1 << place } else { 0 }
}

/// Whether a mask has a place.
pub fn has(mask: u32, place: usize) -> bool {
    mask & bit(place) != 0
}

/// The sum of the words at the places of a mask, and of the constant where it has that.
pub fn word_of(words: &[u64], mask: u32) -> u64 {
    let mut sum = if mask & ONE == 0 { 0 } else { u64::MAX };
    for (place, word) in words.iter().enumerate() {
        if has(mask, place) {
            sum ^= *word;
        }
    }
    sum
}

// A word, and the words that it is the sum of, a bit for each.
#[derive(Clone, Copy)]
struct Combination {
    word: u64,
    parts: u64,
}

/// The words that sum up to this one, a bit for each place and one for the constant behind them;
/// none where there are none.
pub fn parts_of(words: &[u64], word: u64) -> Option<u64> {
    let mut basis = Basis::new();
    for (place, next) in words.iter().enumerate() {
        basis.insert(*next, part(place));
    }
    basis.insert(u64::MAX, part(words.len()));
    let left = basis.less(Combination { word, parts: 0 });
    if left.word == 0 {
        Some(left.parts)
    } else {
        None
    }
}

// The bit of a place.
fn part(place: usize) -> u64 {
    if place < 64 { 1 << place } else { 0 }
}

// Words that are independent, and what they are the sums of.
#[derive(Clone, Copy)]
struct Basis {
    rows: [Combination; MOST_ROWS],
    count: usize,
}

impl Basis {
    fn new() -> Basis {
        Basis {
            rows: [Combination { word: 0, parts: 0 }; MOST_ROWS],
            count: 0,
        }
    }

    // Takes a word in, unless others make it up.
    fn insert(&mut self, word: u64, parts: u64) {
        let row = self.less(Combination { word, parts });
        if row.word == 0 || self.count >= MOST_ROWS {
            return;
        }
        self.rows[self.count] = row;
        self.count += 1;
    }

    // A word less rows.
    fn less(&self, from: Combination) -> Combination {
        let mut now = from;
        for row in self.rows.iter().take(self.count) {
            if now.word & row.word & row.word.wrapping_neg() != 0 {
                now.word ^= row.word;
                now.parts ^= row.parts;
            }
        }
        now
    }
}

/// The same as a mask.
pub fn mask_of(words: &[u64], word: u64) -> Option<u32> {
    Some(mask_of_parts(words.len(), parts_of(words, word)?))
}

/// The first parts as a mask: those at so many places, and the constant behind them.
pub fn mask_of_parts(count: usize, parts: u64) -> u32 {
    let mut mask = 0;
    for place in 0..count.min(31) {
        if parts >> place & 1 == 1 {
            mask |= bit(place);
        }
    }
    if count < 64 && parts >> count & 1 == 1 {
        mask |= ONE;
    }
    mask
}
