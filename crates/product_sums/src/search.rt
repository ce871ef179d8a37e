// A search for known products whose marks have a sum. No answer rests on it.
ghost use Rattle.std.specs.Prelude.{◌≡◌, ◌<◌, false, length};

use crate::index::Index;
use crate::keys::{keys, sum_keys};
use crate::known::Known;
use crate::marks::Mark;
use linear_forms::Form;
use revc_base::Memory;
use std::alloc::Global;
use std::collections::HashSet;

// The most candidates of a search.
const MOST: usize = 96;

// The most candidates of a key: of more, the first and the last half as many.
const FEW: usize = 32;

// Products whose marks' sum is the mark of these factors, among those near the factors, those met
// last, and those near to these.
pub fn search(
    known: &[Known],
    index: &Index,
    first: &Form,
    second: &Form,
) -> Result<Option<Vec<usize>>, Memory> {
    let mut found = Candidates::new(first.allocator(), Mark::of(first, second));
    found.take_near(known, index, &keys(first, second)?)?;
    found.take_met(known, index)?;
    let early = found.places.len();
    found.take_sums(known, index, first, second, early)?;
    found.take_further(known, index, early)?;
    found.chosen()
}

// A sum of candidates: its mark, and their places among the candidates, a bit for each.
#[derive(Clone, Copy)]
struct Row {
    mark: Mark,
    lead: Mark,
    set: u128,
}

// Candidates, in the order in which they were found, and the marks of sums of them.
#[derive(Drop)]
struct Candidates {
    places: Vec<usize>,
    rows: Vec<Row>,
    asked: HashSet<u64>,
    // What is left of the mark that is looked for, and what was taken off it.
    left: Mark,
    set: u128,
}

impl Candidates {
    fn new(alloc: Global, left: Mark) -> Candidates {
        Candidates {
            places: Vec::new(alloc),
            rows: Vec::new(alloc),
            asked: HashSet::new(alloc),
            left,
            set: 0,
        }
    }

    // Those near to each of these keys.
    fn take_near(&mut self, known: &[Known], index: &Index, keys: &[u64]) -> Result<(), Memory> {
        for key in keys {
            self.take_key(known, index, *key)?;
        }
        Ok(())
    }

    // Those near to a key, where it is a new one.
    fn take_key(&mut self, known: &[Known], index: &Index, key: u64) -> Result<(), Memory> {
        if self.is_done() || !self.asked.insert(key)? {
            return Ok(());
        }
        let Some(places) = index.near.get(&key) else {
            return Ok(());
        };
        if places.len() <= FEW {
            return self.take_all(known, places);
        }
        self.take_all(known, &places[..FEW / 2])?;
        self.take_all(known, &places[places.len() - FEW / 2..])
    }

    // Those met last, the last one first.
    fn take_met(&mut self, known: &[Known], index: &Index) -> Result<(), Memory> {
        for place in index.met.iter().rev() {
            self.take(known, *place)?;
        }
        Ok(())
    }

    // Those near to the sums of a factor and a factor of an early candidate.
    fn take_sums(
        &mut self,
        known: &[Known],
        index: &Index,
        first: &Form,
        second: &Form,
        early: usize,
    ) -> Result<(), Memory> {
        for number in 0..early {
            if let Some(k) = self.product(known, number) {
                let keys = sum_keys(first, second, &k.first, &k.second);
                self.take_near(known, index, &keys)?;
            }
        }
        Ok(())
    }

    // Those near to the early candidates.
    fn take_further(&mut self, known: &[Known], index: &Index, early: usize) -> Result<(), Memory> {
        for number in 0..early {
            if self.is_done() {
                return Ok(());
            }
            if let Some(k) = self.product(known, number) {
                self.take_near(known, index, &keys(&k.first, &k.second)?)?;
            }
        }
        Ok(())
    }

    fn product<'a>(&self, known: &'a [Known], number: usize) -> Option<&'a Known> {
        known.get(*self.places.get(number)?)
    }

    fn take_all(&mut self, known: &[Known], places: &[usize]) -> Result<(), Memory> {
        for place in places {
            self.take(known, *place)?;
        }
        Ok(())
    }

    // Takes a candidate, where it is a new one.
    fn take(&mut self, known: &[Known], place: usize) -> Result<(), Memory> {
        if self.is_done() || self.places.contains(&place) {
            return Ok(());
        }
        let Some(k) = known.get(place) else {
            return Ok(());
        };
        let own = 1 << self.places.len();
        self.places.push(place)?;
        self.put(self.reduced(Mark::of(&k.first, &k.second), own))
    }

    // A mark with the known ones taken off.
    fn reduced(&self, mark: Mark, own: u128) -> Row {
        let mut left = mark;
        let mut set = own;
        for row in &self.rows {
            if left.meets(row.lead) {
                left = left.plus(row.mark);
                set ^= row.set;
            }
        }
        Row {
            mark: left,
            lead: left.lowest(),
            set,
        }
    }

    // Takes a reduced mark off what is left.
    fn put(&mut self, row: Row) -> Result<(), Memory> {
        if row.mark.is_none() {
            return Ok(());
        }
        if self.left.meets(row.lead) {
            self.left = self.left.plus(row.mark);
            self.set ^= row.set;
        }
        self.rows.push(row)?;
        Ok(())
    }

    // Whether no more candidates are wanted.
    fn is_done(&self) -> bool
        ensures { result ≡ false → length self.now.places.items < 96 }
    {
        self.left.is_none() || self.places.len() >= MOST
    }

    // The candidates that were taken off, where nothing is left.
    fn chosen(&self) -> Result<Option<Vec<usize>>, Memory> {
        if !self.left.is_none() {
            return Ok(None);
        }
        let mut chosen = Vec::new(*self.places.allocator());
        let mut own = 1;
        for place in &self.places {
            if self.set & own != 0 {
                chosen.push(*place)?;
            }
            own <<= 1;
        }
        Ok(Some(chosen))
    }
}
