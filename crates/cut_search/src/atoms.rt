// What is known of atoms. No answer rests on it.
use crate::vectors::Vector;
use linear_forms::Form;
use plan_tools::{Table, Work, list_at, number};
use product_sums::{Known, Products};

/// How many users of an atom are kept.
const MOST_USERS: usize = 1024;

/// An atom that stands for a product: the product's place in the table, the marks of its factors,
/// and its depth, which is one more than that of each atom of them.
#[derive(Clone, Copy)]
pub struct Made {
    pub place: usize,
    pub first: Vector,
    pub second: Vector,
    pub depth: u32,
}

/// The atoms that stand for products, behind those that are given; and of each atom the first
/// products whose factors have it.
#[derive(Drop)]
pub struct Atoms {
    given: u32,
    made: Vec<Made>,
    users: Vec<Vec<u32>>,
    /// How many there were when the program was read: the rest is the circuit's.
    program: usize,
}

impl Atoms {
    pub fn new(work: &mut Work, given: u32) -> Atoms {
        Atoms {
            given,
            made: Vec::new(work.alloc),
            users: work.lists(given as usize),
            program: usize::MAX,
        }
    }

    pub fn count(&self) -> usize {
        (self.given as usize).saturating_add(self.made.len())
    }

    /// The program was read: what is made from here on is the circuit's.
    pub fn end_program(&mut self) {
        self.program = self.count();
    }

    /// Whether the program is being read.
    pub fn reads_program(&self) -> bool {
        self.program == usize::MAX
    }

    pub fn is_programs(&self, atom: u32) -> bool {
        (atom as usize) < self.program
    }

    /// The next atom stands for the product at this place of the table.
    pub fn note(&mut self, work: &mut Work, place: usize, known: &Known) {
        let atom = number(self.count());
        let first = self.use_in(work, atom, &known.first);
        let second = self.use_in(work, atom, &known.second);
        work.push(
            &mut self.made,
            Made {
                place,
                first: first.mark,
                second: second.mark,
                depth: first.depth.max(second.depth).saturating_add(1),
            },
        );
        work.push(&mut self.users, Vec::new(work.alloc));
    }

    // An atom uses those of a factor. The factor's mark and depth.
    fn use_in(&mut self, work: &mut Work, atom: u32, factor: &Form) -> Sum {
        let atoms = atoms_of(work, factor);
        let mut sum = Sum {
            mark: Vector::none(),
            depth: 0,
        };
        for a in &atoms {
            sum.mark = sum.mark.plus(&Vector::mark(*a));
            sum.depth = sum.depth.max(self.depth(*a));
            self.put_user(work, *a, atom);
        }
        sum
    }

    fn put_user(&mut self, work: &mut Work, of: u32, atom: u32) {
        let Some(users) = self.users.get_mut(of as usize) else {
            return;
        };
        if users.len() < MOST_USERS && users.last() != Some(&atom) {
            work.push(users, atom);
        }
    }

    /// What an atom stands for; none where it is given.
    pub fn made(&self, atom: u32) -> Option<&Made> {
        self.made.get(atom.checked_sub(self.given)? as usize)
    }

    pub fn depth(&self, atom: u32) -> u32 {
        self.made(atom).map_or(0, |made| made.depth)
    }

    pub fn users(&self, atom: u32) -> &[u32] {
        list_at(&self.users, atom)
    }
}

// The mark and the depth of a sum.
#[derive(Clone, Copy)]
struct Sum {
    mark: Vector,
    depth: u32,
}

/// The table of products with what is known of its atoms.
#[derive(Clone, Copy)]
pub struct Scene<'a> {
    pub products: &'a Products,
    pub atoms: &'a Atoms,
}

impl<'a> Scene<'a> {
    /// The product for which an atom stands.
    pub fn known(&self, atom: u32) -> Option<&'a Known> {
        self.products.known(self.atoms.made(atom)?.place)
    }
}

/// The atoms of a form, rising.
pub fn atoms_of(work: &mut Work, form: &Form) -> Vec<u32> {
    let mut atoms = Vec::new(work.alloc);
    for term in form.terms() {
        push_atoms(work, &mut atoms, term.place, term.word);
    }
    atoms
}

/// Appends the atoms of a word.
pub fn push_atoms(work: &mut Work, atoms: &mut Vec<u32>, place: u32, word: u64) {
    let first = place.wrapping_mul(64);
    let mut left = word;
    for _atom in 0..word.count_ones() {
        work.push(atoms, first.wrapping_add(left.trailing_zeros()));
        left &= left.wrapping_sub(1);
    }
}

/// Whether a form has an atom.
pub fn has_atom(form: &Form, atom: u32) -> bool {
    let place = atom / 64;
    match form.terms().binary_search_by_key(&place, |term| term.place) {
        Ok(at) => form
            .terms()
            .get(at)
            .is_some_and(|term| (term.word >> (atom % 64)) & 1 == 1),
        Err(_) => false,
    }
}

/// The last atom of a form.
pub fn last_atom(form: &Form) -> Option<u32> {
    let term = form.terms().last()?;
    let last = 63_u32.saturating_sub(term.word.leading_zeros());
    Some(term.place.wrapping_mul(64).wrapping_add(last))
}

/// The mark of a form.
pub fn mark_of(work: &mut Work, form: &Form) -> Vector {
    let atoms = atoms_of(work, form);
    work.spend(atoms.len() as u64);
    let mut mark = Vector::none();
    for atom in &atoms {
        mark = mark.plus(&Vector::mark(*atom));
    }
    mark
}

/// A set of atoms.
#[derive(Drop)]
pub struct AtomSet {
    words: Table<u64>,
}

impl AtomSet {
    /// None of the first atoms, as many as there are.
    pub fn new(work: &mut Work, atoms: usize) -> AtomSet {
        AtomSet {
            words: Table::new(work, (atoms / 64).saturating_add(1), 0),
        }
    }

    /// Takes in the atoms of a word. Those that are new.
    pub fn take(&mut self, place: u32, word: u64) -> u64 {
        let had = self.words.get(place);
        self.words.set(place, had | word);
        word & !had
    }

    pub fn word(&self, place: u32) -> u64 {
        self.words.get(place)
    }
}
