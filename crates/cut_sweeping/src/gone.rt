// Atoms that are left out of sums.
use linear_forms::Form;
use plan_tools::Work;
use std::alloc::Global;
use std::collections::HashMap;

/// The most words of sums that are noted.
const MOST_HELD: usize = 1 << 23;

/// Atoms that are left out of sums, each for a sum that is 0 and has it: of these the places. And
/// sums with such atoms, by fingerprints, each with the place of a sum that is 0 and has the same
/// ones.
#[derive(Drop)]
pub struct Gone {
    places: HashMap<u32, usize>,
    words: Vec<u64>,
    noted: HashMap<u64, Noted>,
    held: usize,
}

/// The place of a sum that is 0, and how many atoms were left out when it was noted.
#[derive(Clone, Copy)]
struct Noted {
    place: usize,
    atoms: usize,
}

impl Gone {
    pub fn new(alloc: Global) -> Gone {
        Gone {
            places: HashMap::new(alloc),
            words: Vec::new(alloc),
            noted: HashMap::new(alloc),
            held: 0,
        }
    }

    pub fn has(&self, atom: u32) -> bool {
        self.places.contains_key(&atom)
    }

    /// The sum that leaves such atoms out of a form: all of them where that is noted, else the
    /// first one.
    pub fn place_in(&self, form: &Form) -> Option<usize> {
        let atom = self.first_in(form)?;
        match self.noted(form) {
            Some(noted) => Some(noted.place),
            None => self.places.get(&atom).copied(),
        }
    }

    fn noted(&self, form: &Form) -> Option<Noted> {
        self.noted.get(&form.fingerprint().first).copied()
    }

    /// The sum at a place, of so many words, leaves all such atoms out of a form.
    pub fn note(&mut self, work: &mut Work, form: &Form, place: usize, words: usize) {
        let atoms = self.places.len();
        let noted = Noted { place, atoms };
        self.held = self.held.saturating_add(words);
        work.note(self.noted.insert(form.fingerprint().first, noted));
    }

    /// Where to begin with a sum of two others, of which it is not noted what leaves its atoms out:
    /// the places that are noted for these two. One alone that does is noted for the sum at once.
    pub fn start(
        &mut self,
        work: &mut Work,
        first: &Form,
        second: &Form,
        sum: &Form,
    ) -> Option<Vec<usize>> {
        if self.held > MOST_HELD || self.first_in(sum).is_none() || self.is_fresh(self.noted(sum)) {
            return None;
        }
        let (one, other) = (self.noted(first), self.noted(second));
        if self.is_fresh(one) && self.first_in(second).is_none() {
            self.note(work, sum, one?.place, 0);
            return None;
        }
        let mut places = Vec::new(work.alloc);
        for noted in &[one, other] {
            if let Some(noted) = noted {
                work.push(&mut places, noted.place);
            }
        }
        Some(places)
    }

    // Whether no atom was left out since a sum was noted.
    fn is_fresh(&self, noted: Option<Noted>) -> bool {
        match noted {
            Some(noted) => noted.atoms == self.places.len(),
            None => false,
        }
    }

    fn first_in(&self, form: &Form) -> Option<u32> {
        for term in form.terms() {
            let word = self.word(term.place) & term.word;
            if word != 0 {
                let first = term.place.wrapping_mul(64);
                return Some(first.wrapping_add(word.trailing_zeros()));
            }
        }
        None
    }

    fn word(&self, place: u32) -> u64 {
        match self.words.get(place as usize) {
            Some(word) => *word,
            None => 0,
        }
    }

    /// An atom is left out for the sum at a place.
    pub fn put(&mut self, work: &mut Work, atom: u32, place: usize) {
        work.note(self.places.insert(atom, place));
        let at = (atom / 64) as usize;
        for _word in self.words.len()..at.saturating_add(1) {
            work.push(&mut self.words, 0);
        }
        if let Some(word) = self.words.get_mut(at) {
            *word |= 1 << (atom % 64);
        }
    }
}
