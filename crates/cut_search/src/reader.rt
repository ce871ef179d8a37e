// Forms as sums of functions of a cut. No answer rests on it.
use crate::atoms::{atoms_of, has_atom};
use crate::basis::{Basis, add_to};
use linear_forms::Form;
use plan_tools::Work;
use std::collections::HashMap;

/// Which functions of a cut atoms are.
#[derive(Drop)]
pub struct Reader {
    /// The leads of the cut's sums, which are functions 1, 2, ..
    pub leads: Vec<u32>,
    /// The function of each atom that is one.
    pub places: HashMap<u32, usize>,
}

impl Reader {
    /// None yet, for a cut of these sums.
    pub fn new(work: &mut Work, basis: &Basis) -> Reader {
        let mut leads = Vec::new(work.alloc);
        for lead in &basis.leads {
            work.push(&mut leads, lead.atom);
        }
        Reader {
            leads,
            places: HashMap::new(work.alloc),
        }
    }

    /// An atom is the function at a place.
    pub fn put(&mut self, work: &mut Work, atom: u32, place: usize) {
        work.note(self.places.insert(atom, place));
    }

    /// Whether an atom is a function, or stands for a sum of the cut.
    pub fn has(&self, atom: u32) -> bool {
        self.places.contains_key(&atom) || self.leads.contains(&atom)
    }

    /// The functions whose sum may be a form, where these are the cut's sums: the short ones first.
    pub fn reading(&self, work: &mut Work, sums: &[Form], form: &Form) -> Option<Vec<usize>> {
        let mut rest = work.note(form.copy())?;
        let mut in_sum = Vec::new(work.alloc);
        for (k, lead) in self.leads.iter().enumerate() {
            if has_atom(&rest, *lead) {
                add_to(work, &mut rest, sums.get(k)?);
                work.push(&mut in_sum, k.saturating_add(1));
            }
        }
        let mut places = self.places_in(work, &rest)?;
        work.append(&mut places, &in_sum);
        Some(places)
    }

    // The functions that the atoms of a form and its constant are, where all are some.
    fn places_in(&self, work: &mut Work, form: &Form) -> Option<Vec<usize>> {
        let mut places = Vec::new(work.alloc);
        if form.one() {
            work.push(&mut places, 0);
        }
        let atoms = atoms_of(work, form);
        for atom in &atoms {
            work.push(&mut places, *self.places.get(atom)?);
        }
        Some(places)
    }
}
