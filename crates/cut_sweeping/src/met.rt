// Sums that may be 0, by their values in some columns.
use crate::reach::Reach;
use cut_search::{Atoms, Vector, atoms_of};
use linear_forms::Form;
use plan_tools::Work;
use product_sums::Known;
use std::collections::{HashMap, HashSet};
use wide_cuts::column;

/// The most sums of the program that are kept, and the most words of them.
const MOST_FORMS: usize = 65_536;

const MOST_WORDS: usize = 1 << 23;

/// So many units may be lost on sums that are not known to be 0, and as many more as were won.
const MOST_LOST: u64 = 1 << 27;

/// The sums of the program by their values, and the sums that were proposed to be 0.
#[derive(Drop)]
pub struct Met {
    is_asked: bool,
    /// The values of each atom in some columns.
    values: Vec<Vector>,
    forms: Vec<Form>,
    words: usize,
    places: HashMap<u64, usize>,
    proposed: HashSet<u64>,
    won: u64,
    lost: u64,
}

impl Met {
    /// None yet. Nothing is looked at where wide cuts are not asked.
    pub fn new(work: &mut Work, given: u32, reach: Reach) -> Met {
        let alloc = work.alloc;
        let mut values = Vec::new(alloc);
        if reach.has_wide() {
            for atom in 0..given {
                work.push(&mut values, column(atom, given));
            }
        }
        Met {
            is_asked: reach.has_wide(),
            values,
            forms: Vec::new(alloc),
            words: 0,
            places: HashMap::new(alloc),
            proposed: HashSet::new(alloc),
            won: 0,
            lost: 0,
        }
    }

    /// The next atom stands for this product.
    pub fn note(&mut self, work: &mut Work, atoms: &Atoms, known: &Known) {
        if !self.is_asked {
            return;
        }
        let first = self.values_of(work, &known.first);
        let second = self.values_of(work, &known.second);
        let values = first.values.times(&second.values);
        work.push(&mut self.values, values);
        if atoms.reads_program() {
            self.keep(work, &known.value);
        }
    }

    /// So many units were spent on a sum that was proposed, which is known to be 0 or not.
    pub fn count(&mut self, is_zero: bool, units: u64) {
        if is_zero {
            self.won = self.won.saturating_add(units);
        } else {
            self.lost = self.lost.saturating_add(units);
        }
    }

    /// A sum of the program is kept, one of the circuit looked at: a sum that may be 0, where it
    /// has the values of a sum of the program or of 0, and was not proposed before.
    pub fn meet(&mut self, work: &mut Work, atoms: &Atoms, sum: &Form) -> Option<Form> {
        if atoms.reads_program() {
            self.keep(work, sum);
            return None;
        }
        if self.lost > self.won.saturating_add(MOST_LOST) {
            return None;
        }
        let zero = self.proposal(work, sum)?;
        let new = self.proposed.insert(zero.fingerprint().first);
        if zero.as_constant().is_some() || work.note(new) != Some(true) {
            return None;
        }
        Some(zero)
    }

    // The sum, or that of it and of the program's sum with these values.
    fn proposal(&self, work: &mut Work, sum: &Form) -> Option<Form> {
        let seen = self.values_of(work, sum);
        if seen.values.lead().is_some() {
            let place = *self.places.get(&seen.values.key())?;
            return work.note(sum.plus(self.forms.get(place)?));
        }
        if seen.tells {
            work.note(sum.copy())
        } else {
            None
        }
    }

    // Keeps a sum of the program, if none with its values is kept.
    fn keep(&mut self, work: &mut Work, sum: &Form) {
        let values = self.values_of(work, sum).values;
        let key = values.key();
        let is_full = self.forms.len() >= MOST_FORMS || self.words >= MOST_WORDS;
        if is_full || values.lead().is_none() || self.places.contains_key(&key) {
            return;
        }
        let Some(copy) = work.note(sum.copy()) else {
            return;
        };
        self.words = self.words.saturating_add(sum.len());
        work.note(self.places.insert(key, self.forms.len()));
        work.push(&mut self.forms, copy);
    }

    fn values_of(&self, work: &mut Work, sum: &Form) -> Seen {
        let atoms = atoms_of(work, sum);
        work.spend(atoms.len() as u64);
        let mut seen = Seen {
            values: Vector::all(sum.one()),
            tells: sum.one(),
        };
        for atom in &atoms {
            if let Some(own) = self.values.get(*atom as usize) {
                seen.values = seen.values.plus(own);
                seen.tells |= own.lead().is_some();
            }
        }
        seen
    }
}

// The values of a sum, and whether they tell anything: those of an atom that are all 0 do not.
#[derive(Clone, Copy)]
struct Seen {
    values: Vector,
    tells: bool,
}
