// The sums of a cut.
use crate::atoms::{AtomSet, Scene, atoms_of, has_atom, push_atoms};
use crate::walk::Place;
use linear_forms::Form;
use plan_tools::Work;

/// A sum of a cut, and its lead: an atom that no other of these sums has.
#[derive(Drop)]
pub struct Lead {
    pub atom: u32,
    pub form: Form,
}

/// The sums of a cut.
#[derive(Drop)]
pub struct Basis {
    inside: AtomSet,
    pub leads: Vec<Lead>,
}

impl Basis {
    /// What has to be known besides the opened atoms, so that these sums are.
    pub fn of(work: &mut Work, scene: Scene, place: &Place, goals: &[&Form]) -> Basis {
        let mut basis = Basis {
            inside: AtomSet::new(work, scene.atoms.count()),
            leads: Vec::new(work.alloc),
        };
        for atom in &place.inside {
            basis.inside.take(*atom / 64, 1 << (*atom % 64));
        }
        for goal in goals {
            basis.span(work, scene, goal);
        }
        for atom in &place.inside {
            if let Some(known) = scene.known(*atom) {
                basis.span(work, scene, &known.first);
                basis.span(work, scene, &known.second);
            }
        }
        basis
    }

    // Takes in what a form is beside the opened atoms.
    fn span(&mut self, work: &mut Work, scene: Scene, form: &Form) {
        let Some(rest) = self.reduced(work, form) else {
            return;
        };
        let Some(atom) = deepest(work, scene, &rest) else {
            return;
        };
        for lead in &mut self.leads {
            if has_atom(&lead.form, atom) {
                add_to(work, &mut lead.form, &rest);
            }
        }
        work.push(&mut self.leads, Lead { atom, form: rest });
    }

    // A form without the opened atoms, less the sums whose leads it has, and without a constant.
    fn reduced(&self, work: &mut Work, form: &Form) -> Option<Form> {
        let mut rest = self.outside(work, form)?;
        for lead in &self.leads {
            if has_atom(&rest, lead.atom) {
                add_to(work, &mut rest, &lead.form);
            }
        }
        let one = rest.one();
        Some(rest.with_one(one))
    }

    fn outside(&self, work: &mut Work, form: &Form) -> Option<Form> {
        let mut rest = work.note(form.copy())?;
        let mut opened = Form::constant(work.alloc, false);
        for term in form.terms() {
            let word = term.word & self.inside.word(term.place);
            if word != 0 {
                add_atoms(work, &mut opened, term.place, word);
            }
        }
        add_to(work, &mut rest, &opened);
        Some(rest)
    }
}

// Adds the atoms of a word.
fn add_atoms(work: &mut Work, sum: &mut Form, place: u32, word: u64) {
    let mut atoms = Vec::new(work.alloc);
    push_atoms(work, &mut atoms, place, word);
    for number in &atoms {
        if let Some(atom) = work.note(Form::atom(work.alloc, *number)) {
            add_to(work, sum, &atom);
        }
    }
}

/// Adds a form to another one.
pub fn add_to(work: &mut Work, sum: &mut Form, form: &Form) {
    work.spend(sum.len().saturating_add(form.len()) as u64);
    if let Some(now) = work.note(sum.plus(form)) {
        *sum = now;
    }
}

// The deepest atom of a form, and of several the last one.
fn deepest(work: &mut Work, scene: Scene, form: &Form) -> Option<u32> {
    let atoms = atoms_of(work, form);
    let mut deepest = *atoms.first()?;
    for atom in &atoms {
        if scene.atoms.depth(*atom) >= scene.atoms.depth(deepest) {
            deepest = *atom;
        }
    }
    Some(deepest)
}
