// Truth tables of functions of up to twelve bits.
ghost use Rattle.std.specs.Prelude.{◌≡◌, ℕ, ◌*◌, ◌+◌, ◌<◌, ◌^◌, ◌&&◌, Bool, true, false, length};
ghost use Rattle.std.specs.Bool.{xor};
ghost use Rattle.linear_forms.specs.Pairs.{is_in};
ghost use Rattle.sum_cuts.specs.Tables.{table_bit};

/// The words of a table.
const WORDS: usize = 64;

/// Bit b of each of these words is bit k of b, for k from 0 on.
const PERIODS: [u64; 6] = [
    0xAAAA_AAAA_AAAA_AAAA,
    0xCCCC_CCCC_CCCC_CCCC,
    0xF0F0_F0F0_F0F0_F0F0,
    0xFF00_FF00_FF00_FF00,
    0xFFFF_0000_FFFF_0000,
    0xFFFF_FFFF_0000_0000,
];

/// A truth table of 4,096 rows: a word has the values of 64 of them, the first in its lowest bit.
#[derive(Clone, Copy, Drop)]
pub struct Table {
    pub words: [u64; 64],
}

impl Table {
    /// 0 in each row.
    pub fn none() -> Table
        ensures { (row : ℕ) → row < 4096 → table_bit result.words row ≡ false }
    {
        Table { words: [0; WORDS] }
    }

    /// 1 in each row.
    pub fn one() -> Table
        ensures { (row : ℕ) → row < 4096 → table_bit result.words row ≡ true }
    {
        Table {
            words: [u64::MAX; WORDS],
        }
    }

    /// In each row the bit of its number at a place.
    pub fn variable(place: u32) -> Table
        requires few { place < 12 }
        ensures { (row : ℕ) → row < 4096 → table_bit result.words row ≡ is_in row place }
    {
        let mut words = [0; WORDS];
        for i in 0..WORDS {
            words[i] = part(place, i as u64);
        }
        Table { words }
    }

    /// The exclusive or of both.
    pub fn plus(&self, other: &Table) -> Table
        ensures { (row : ℕ) → row < 4096 → table_bit result.words row
            ≡ xor (table_bit self.now.words row) (table_bit other.now.words row) }
    {
        let mut words = [0; WORDS];
        for i in 0..WORDS {
            words[i] = self.words[i] ^ other.words[i];
        }
        Table { words }
    }

    /// The conjunction of both.
    pub fn times(&self, other: &Table) -> Table
        ensures { (row : ℕ) → row < 4096 → table_bit result.words row
            ≡ (table_bit self.now.words row && table_bit other.now.words row) }
    {
        let mut words = [0; WORDS];
        for i in 0..WORDS {
            words[i] = self.words[i] & other.words[i];
        }
        Table { words }
    }

    /// Whether both are equal in each row.
    pub fn is_same(&self, other: &Table) -> bool
        ensures { result ≡ true → self.now.words ≡ other.now.words }
    {
        self.words.as_slice() == other.words.as_slice()
    }
}

// The word at a place of the table of a variable.
fn part(place: u32, i: u64) -> u64
    requires few { place < 12 }
    ensures { (low : ℕ) → low < 64 → is_in result low ≡ is_in (i * 2 ^ 6 + low) place }
{
    if place < 6 {
        return PERIODS[place as usize];
    }
    if has(i, place - 6) { u64::MAX } else { 0 }
}

// Whether a word has a bit.
fn has(word: u64, place: u32) -> bool
    requires low { place < 64 }
    ensures { result ≡ is_in word place }
{
    (word >> place) & 1 == 1
}
