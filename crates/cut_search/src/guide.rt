// What is looked up of a cut and its functions. No answer rests on it.
use crate::atoms::Scene;
use crate::basis::Basis;
use crate::reader::Reader;
use crate::vectors::{MOST_BITS, Space, Vector};
use crate::walk::{MOST_INSIDE, Place};
use linear_forms::Form;
use plan_tools::{Work, number};
use std::collections::HashSet;
use std::mem;
use sum_cuts::{Cut, Table};

/// The most products that are tested as functions of a new cut.
const MOST_TESTS: usize = 4096;

// A table with its first row that is 1, as no other after it has, and the functions of which it is
// the sum.
#[derive(Clone, Copy)]
struct Reduced {
    lead: u32,
    table: Table,
    set: Vector,
}

/// A relation: the sum of some functions is 0, and this atom may be left out of sums for it.
#[derive(Clone, Copy)]
pub struct Relation {
    pub atom: u32,
    pub set: Vector,
}

/// An atom that may be a function of a cut: where the product is for which it stands, and whether
/// it is left out of sums.
#[derive(Clone, Copy)]
pub struct Member {
    pub atom: u32,
    pub place: usize,
    pub is_gone: bool,
}

/// Where to look for the functions of a cut.
#[derive(Drop)]
pub struct Guide {
    /// The words of a table that tell all rows of the cut.
    words: usize,
    pub reader: Reader,
    /// The marks of the sums that functions of the cut are.
    space: Space,
    rows: Vec<Reduced>,
    /// Relations that were found and not yet fetched.
    relations: Vec<Relation>,
    /// The atoms before this one were tested.
    scanned: u32,
    /// How many functions were taken in since `grown` was asked.
    grown: usize,
}

impl Guide {
    /// That of a cut of these sums.
    pub fn new(work: &mut Work, cut: &Cut, basis: &Basis, place: &Place) -> Guide {
        let mut guide = Guide {
            words: words_of(basis.leads.len()),
            reader: Reader::new(work, basis),
            space: place.space.copy(work),
            rows: Vec::new(work.alloc),
            relations: Vec::new(work.alloc),
            scanned: 0,
            grown: cut.functions.len(),
        };
        for (at, function) in cut.functions.iter().enumerate() {
            guide.put_row(work, &function.table, Vector::unit(at));
        }
        guide
    }

    /// How many functions were taken in since this was asked.
    pub fn grown(&mut self) -> usize {
        mem::replace(&mut self.grown, 0)
    }

    // Takes a table in, if it is no sum of those before.
    fn put_row(&mut self, work: &mut Work, table: &Table, own: Vector) -> Option<Vector> {
        let (table, set) = self.reduced(work, table, own);
        let Some(lead) = first_row(&table, self.words) else {
            return Some(set);
        };
        work.push(&mut self.rows, Reduced { lead, table, set });
        None
    }

    // A table less those whose leads it has, and the functions that were added.
    fn reduced(&self, work: &mut Work, table: &Table, own: Vector) -> (Table, Vector) {
        work.spend((self.rows.len() as u64).saturating_mul((self.words / 8) as u64 + 1));
        let (mut left, mut set) = (*table, own);
        for row in &self.rows {
            if has_row(&left, row.lead) {
                add_words(&mut left, &row.table, self.words);
                set = set.plus(&row.set);
            }
        }
        (left, set)
    }

    /// The functions whose sum may have this table.
    pub fn sum_of(&self, work: &mut Work, table: &Table) -> Option<Vec<usize>> {
        let (left, set) = self.reduced(work, table, Vector::none());
        if first_row(&left, self.words).is_some() {
            return None;
        }
        Some(members(work, &set))
    }

    /// The function at a place is this atom. Where it is a sum of others, it may be left out.
    pub fn enter(&mut self, work: &mut Work, member: Member, at: usize, table: &Table) {
        let atom = member.atom;
        self.reader.put(work, atom, at);
        self.space.add(work, &Vector::mark(atom));
        self.grown = self.grown.saturating_add(1);
        if member.is_gone {
            return;
        }
        if let Some(set) = self.put_row(work, table, Vector::unit(at)) {
            work.push(&mut self.relations, Relation { atom, set });
        }
    }

    /// The relations that were found.
    pub fn fetch(&mut self, work: &Work) -> Vec<Relation> {
        work.take(&mut self.relations)
    }

    /// Whether no further function is taken in.
    pub fn is_full(&self) -> bool {
        self.reader.places.len() >= MOST_INSIDE || self.space.rank().saturating_add(64) > MOST_BITS
    }

    /// Whether an atom's factors have marks in the space.
    pub fn may_know(&self, work: &mut Work, scene: Scene, atom: u32) -> bool {
        let Some(made) = scene.atoms.made(atom) else {
            return false;
        };
        self.space.has(work, &made.first) && self.space.has(work, &made.second)
    }

    /// Whether a sum of this mark and with this last atom may be one of functions.
    pub fn may_read(&self, work: &mut Work, last: u32, mark: &Vector) -> bool {
        self.reader.has(last) && self.space.has(work, mark)
    }

    /// The atoms that may be functions and are none yet: those that the walk to the cut opened, and
    /// at first step by step the users of these and of the leads, later those that were made since
    /// the last call.
    pub fn fresh(&mut self, work: &mut Work, scene: Scene, inside: &[u32]) -> Vec<u32> {
        let mut found = Found::new(work);
        for atom in inside {
            self.take(work, &mut found, *atom);
        }
        if self.scanned == 0 {
            self.take_all_users(work, scene, &mut found);
        } else {
            self.take_later(work, scene, &mut found);
        }
        self.scanned = number(scene.atoms.count());
        work.note(found.order.sort());
        found.order
    }

    fn take(&mut self, work: &mut Work, found: &mut Found, atom: u32) {
        if !self.reader.has(atom) {
            self.space.add(work, &Vector::mark(atom));
            found.put(work, atom);
        }
    }

    fn take_later(&mut self, work: &mut Work, scene: Scene, found: &mut Found) {
        for atom in self.scanned..number(scene.atoms.count()) {
            if self.may_know(work, scene, atom) {
                self.take(work, found, atom);
            }
        }
    }

    fn take_all_users(&mut self, work: &mut Work, scene: Scene, found: &mut Found) {
        let leads = work.copy(&self.reader.leads);
        for lead in &leads {
            self.take_users(work, scene, found, *lead);
        }
        for at in 0..MOST_INSIDE {
            let Some(atom) = found.order.get(at) else {
                return;
            };
            let atom = *atom;
            self.take_users(work, scene, found, atom);
        }
    }

    fn take_users(&mut self, work: &mut Work, scene: Scene, found: &mut Found, of: u32) {
        for atom in scene.atoms.users(of) {
            if found.tests >= MOST_TESTS || found.order.len() >= MOST_INSIDE {
                return;
            }
            if found.known.contains(atom) {
                continue;
            }
            found.tests = found.tests.saturating_add(1);
            if self.may_know(work, scene, *atom) {
                self.take(work, found, *atom);
            }
        }
    }
}

// Atoms that were found, and their order.
#[derive(Drop)]
struct Found {
    order: Vec<u32>,
    known: HashSet<u32>,
    tests: usize,
}

impl Found {
    fn new(work: &Work) -> Found {
        Found {
            order: Vec::new(work.alloc),
            known: HashSet::new(work.alloc),
            tests: 0,
        }
    }

    fn put(&mut self, work: &mut Work, atom: u32) {
        let new = self.known.insert(atom);
        if work.note(new) == Some(true) {
            work.push(&mut self.order, atom);
        }
    }
}

/// The places in a set, falling, so that the sums of the cut come last.
pub fn members(work: &mut Work, set: &Vector) -> Vec<usize> {
    let mut places = Vec::new(work.alloc);
    for place in (0..MOST_BITS).rev() {
        if set.has(place as u32) {
            work.push(&mut places, place);
        }
    }
    places
}

// How many words tell a table over so many sums: behind them it repeats itself.
fn words_of(sums: usize) -> usize {
    1 << sums.saturating_sub(6).min(6)
}

// Adds the first words of a table to another one.
fn add_words(sum: &mut Table, table: &Table, words: usize) {
    for i in 0..words.min(64) {
        sum.words[i] ^= table.words[i];
    }
}

// The first row in which a table is 1, in its first words.
fn first_row(table: &Table, words: usize) -> Option<u32> {
    let mut before = 0;
    for word in table.words.iter().take(words) {
        if *word != 0 {
            return Some(word.trailing_zeros().saturating_add(before));
        }
        before = 64_u32.saturating_add(before);
    }
    None
}

fn has_row(table: &Table, row: u32) -> bool {
    match table.words.get((row / 64) as usize) {
        Some(word) => (*word >> (row % 64)) & 1 == 1,
        None => false,
    }
}
