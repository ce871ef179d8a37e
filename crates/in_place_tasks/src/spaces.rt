// What vectors span.
use crate::vectors::{add_from, flip, head_behind};
use plan_tools::{NOWHERE, Table, Work, list_at, number};

/// Independent vectors. The head of each is its first symbol, which is the head of no other one.
#[derive(Drop)]
pub struct Space {
    vectors: Vec<Vec<u64>>,
    heads: Vec<u32>,
    // Of each symbol the place of the vector whose head it is.
    places: Table<u32>,
}

impl Space {
    /// What no vector spans, for vectors of so many words.
    pub fn new(work: &mut Work, words: usize) -> Space {
        Space {
            vectors: Vec::new(work.alloc),
            heads: Vec::new(work.alloc),
            places: Table::new(work, words.saturating_mul(64), NOWHERE),
        }
    }

    pub fn dimension(&self) -> usize {
        self.heads.len()
    }

    // Adds vectors of the space to one, of the first so many, until its first symbol is no head of
    // theirs: that symbol. The places of those that were added, from one on, are flipped in a set.
    fn lead(
        &self,
        work: &mut Work,
        vector: &mut [u64],
        count: u32,
        set: &mut [u64],
        from: u32,
    ) -> Option<u32> {
        let mut lead = head_behind(vector, 0);
        for _ in 0..self.vectors.len() {
            let place = self.places.get(lead?);
            if place >= count {
                return lead;
            }
            let word = (lead? / 64) as usize;
            work.spend(vector.len().saturating_sub(word) as u64);
            add_from(vector, list_at(&self.vectors, place), word);
            if place >= from {
                flip(set, place.saturating_sub(from));
            }
            lead = head_behind(vector, word);
        }
        lead
    }

    /// Adds vectors of the space to one until it has none of their heads: then it is the same for
    /// any two whose sum is in the space.
    pub fn reduce(&self, work: &mut Work, vector: &mut [u64]) {
        for word in 0..vector.len() {
            self.reduce_word(work, vector, word);
        }
    }

    fn reduce_word(&self, work: &mut Work, vector: &mut [u64], word: usize) {
        let mut known = 0_u64;
        for _ in 0..64 {
            let left = vector.get(word).copied().unwrap_or(0) & !known;
            if left == 0 {
                return;
            }
            let bit = left.trailing_zeros();
            let place = self
                .places
                .get(number(word).saturating_mul(64).saturating_add(bit));
            known |= 1 << (bit % 64);
            if place != NOWHERE {
                work.spend(vector.len().saturating_sub(word) as u64);
                add_from(vector, list_at(&self.vectors, place), word);
            }
        }
    }

    /// Whether a vector is in the space.
    pub fn spans(&self, work: &mut Work, vector: &[u64]) -> bool {
        let mut left = work.copy(vector);
        self.lead(work, &mut left, NOWHERE, &mut [], NOWHERE)
            .is_none()
    }

    /// Whether a vector is in the space of the first so many vectors.
    pub fn first_span(&self, work: &mut Work, vector: &[u64], count: usize) -> bool {
        let mut left = work.copy(vector);
        self.lead(work, &mut left, number(count), &mut [], NOWHERE)
            .is_none()
    }

    /// Of the vectors from a place on those that a vector of the space has in its sum.
    pub fn parts_of(&self, work: &mut Work, vector: &[u64], first: usize) -> Vec<u64> {
        let behind = self.heads.len().saturating_sub(first);
        let mut set = work.filled(0, behind / 64 + 1);
        let mut left = work.copy(vector);
        self.lead(work, &mut left, NOWHERE, &mut set, number(first));
        set
    }

    /// Takes a vector in; whether it was not in the space.
    pub fn insert(&mut self, work: &mut Work, vector: &[u64]) -> bool {
        let mut left = work.copy(vector);
        let Some(head) = self.lead(work, &mut left, NOWHERE, &mut [], NOWHERE) else {
            return false;
        };
        self.places.set(head, number(self.heads.len()));
        work.push(&mut self.heads, head);
        work.push(&mut self.vectors, left);
        true
    }

    /// Whether all of another space is in this one.
    pub fn covers(&self, work: &mut Work, other: &Space) -> bool {
        for vector in &other.vectors {
            if work.is_stopped() || !self.spans(work, vector) {
                return false;
            }
        }
        true
    }

    /// The same space once more.
    pub fn copy(&self, work: &mut Work) -> Space {
        let mut vectors = Vec::new(work.alloc);
        for vector in &self.vectors {
            let copied = work.copy(vector);
            work.push(&mut vectors, copied);
        }
        Space {
            vectors,
            heads: work.copy(&self.heads),
            places: self.places.copy(work),
        }
    }

    /// Leaves the first so many vectors.
    pub fn shorten(&mut self, dimension: usize) {
        for place in dimension..self.heads.len() {
            self.places.set(self.heads[place], NOWHERE);
        }
        self.vectors.truncate(dimension);
        self.heads.truncate(dimension);
    }

    /// Leaves a symbol out of all vectors, none of which has an earlier one; whether there are as
    /// many independent ones as before.
    pub fn leave_out(&mut self, work: &mut Work, symbol: u32) -> bool {
        let place = self.places.get(symbol);
        if place == NOWHERE {
            return true;
        }
        let mut vector = work.copy(list_at(&self.vectors, place));
        flip(&mut vector, symbol);
        self.places.set(symbol, NOWHERE);
        self.insert(work, &vector)
    }

    /// The places of the vectors, but of those that lost their heads.
    pub fn all_places(&self, work: &mut Work) -> Vec<u32> {
        let mut all = Vec::new(work.alloc);
        for place in self.places.items() {
            if *place != NOWHERE {
                work.push(&mut all, *place);
            }
        }
        all
    }

    /// The space of the vectors at some places.
    pub fn part(&self, work: &mut Work, places: &[u32], words: usize) -> Space {
        let mut part = Space::new(work, words);
        for place in places {
            part.insert(work, list_at(&self.vectors, *place));
        }
        part
    }
}
