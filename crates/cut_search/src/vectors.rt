// Vectors of 512 bits over the field of two elements.
use plan_tools::Work;
use std::alloc::Global;

/// The words of a vector.
const WORDS: usize = 8;

/// The bits of a vector.
pub const MOST_BITS: usize = 512;

/// A vector: the mark of a sum, a set of up to 512 functions, or values in 512 columns.
#[derive(Clone, Copy)]
pub struct Vector {
    pub words: [u64; 8],
}

impl Vector {
    pub fn none() -> Vector {
        Vector { words: [0; WORDS] }
    }

    /// The same bit everywhere.
    pub fn all(bit: bool) -> Vector {
        let word = if bit { u64::MAX } else { 0 };
        Vector {
            words: [word; WORDS],
        }
    }

    /// The bit at a place alone; none past the last one.
    pub fn unit(place: usize) -> Vector {
        let mut words = [0; WORDS];
        if place < MOST_BITS {
            words[place / 64] = 1 << (place % 64);
        }
        Vector { words }
    }

    /// The mark of an atom: eight outputs of SplitMix64. The mark of a sum is the sum of marks.
    pub fn mark(atom: u32) -> Vector {
        let mut words = [0; WORDS];
        let mut step = u64::from(atom).wrapping_mul(8);
        for i in 0..WORDS {
            step = step.wrapping_add(1);
            words[i] = mixed(step);
        }
        Vector { words }
    }

    pub fn plus(&self, other: &Vector) -> Vector {
        let mut words = [0; WORDS];
        for i in 0..WORDS {
            words[i] = self.words[i] ^ other.words[i];
        }
        Vector { words }
    }

    /// The bits of both.
    pub fn times(&self, other: &Vector) -> Vector {
        let mut words = [0; WORDS];
        for i in 0..WORDS {
            words[i] = self.words[i] & other.words[i];
        }
        Vector { words }
    }

    /// A number that tells vectors apart.
    pub fn key(&self) -> u64 {
        let mut key = 0;
        for word in &self.words {
            key = mixed(*word ^ key);
        }
        key
    }

    /// The place of the first bit.
    pub fn lead(&self) -> Option<u32> {
        let mut before = 0;
        for word in &self.words {
            if *word != 0 {
                return Some(word.trailing_zeros().saturating_add(before));
            }
            before = 64_u32.saturating_add(before);
        }
        None
    }

    pub fn has(&self, place: u32) -> bool {
        match self.words.get((place / 64) as usize) {
            Some(word) => (*word >> (place % 64)) & 1 == 1,
            None => false,
        }
    }

    /// The vector, less a row whose lead it has.
    pub fn less(&self, row: Row) -> Vector {
        if self.has(row.lead) {
            self.plus(&row.vector)
        } else {
            *self
        }
    }
}

// An output of SplitMix64 from a seed that is not that of fingerprints.
fn mixed(step: u64) -> u64 {
    let state = step.wrapping_mul(0xD134_2543_DE82_EF95) ^ 0x5851_F42D_4C95_7F2D;
    let once = (state ^ (state >> 30)).wrapping_mul(0xBF58_476D_1CE4_E5B9);
    let twice = (once ^ (once >> 27)).wrapping_mul(0x94D0_49BB_1331_11EB);
    twice ^ (twice >> 31)
}

/// A vector that has the bit at `lead`, as none before it in its space has.
#[derive(Clone, Copy)]
pub struct Row {
    pub lead: u32,
    pub vector: Vector,
}

/// Vectors in echelon form, as a basis of what they span.
#[derive(Drop)]
pub struct Space {
    rows: Vec<Row>,
}

impl Space {
    pub fn new(alloc: Global) -> Space {
        Space {
            rows: Vec::new(alloc),
        }
    }

    pub fn copy(&self, work: &mut Work) -> Space {
        Space {
            rows: work.copy(&self.rows),
        }
    }

    pub fn rank(&self) -> usize {
        self.rows.len()
    }

    /// The vector less the rows whose leads it has.
    pub fn reduced(&self, work: &mut Work, vector: &Vector) -> Vector {
        work.spend(self.rows.len() as u64);
        let mut left = *vector;
        for row in &self.rows {
            left = left.less(*row);
        }
        left
    }

    pub fn has(&self, work: &mut Work, vector: &Vector) -> bool {
        self.reduced(work, vector).lead().is_none()
    }

    /// Takes a vector in. The new row, where it was not in the span.
    pub fn add(&mut self, work: &mut Work, vector: &Vector) -> Option<Row> {
        let vector = self.reduced(work, vector);
        let lead = vector.lead()?;
        let row = Row { lead, vector };
        work.push(&mut self.rows, row);
        Some(row)
    }
}
