// A cut on its way: from sums that have to be known down through the products in them.
use crate::atoms::{AtomSet, Scene, push_atoms};
use crate::vectors::{MOST_BITS, Row, Space, Vector};
use linear_forms::Form;
use plan_tools::Work;
use std::alloc::Global;

/// The most atoms that may be opened.
pub const MOST_INSIDE: usize = 384;

/// The most candidates.
pub const MOST_LEFT: usize = 2048;

// A product that may be opened: the marks of its atom and of its factors, less the space.
#[derive(Clone, Copy)]
struct Candidate {
    atom: u32,
    is_programs: bool,
    depth: u32,
    parts: [Vector; 3],
}

// Which candidate is opened: the least one. Of the products by which the cut grows least the
// circuit's go first, then the deepest ones.
#[derive(Clone, Copy, PartialEq, Eq, PartialOrd, Ord)]
struct Order {
    growth: u32,
    is_programs: bool,
    rank: u32,
    depth_left: u32,
    atom_left: u32,
}

/// A candidate: where it is, and how many sums its opening adds to the space. The cut has one more
/// for each but the first.
#[derive(Clone, Copy)]
pub struct Opening {
    at: usize,
    pub rank: u32,
}

/// A cut, as the space of the sums that were met and the atoms that were opened: it has as many
/// sums as the space has dimensions, less the opened atoms.
#[derive(Drop)]
pub struct Place {
    pub space: Space,
    pub inside: Vec<u32>,
}

impl Place {
    /// How many sums the cut has.
    pub fn width(&self) -> usize {
        self.space.rank().saturating_sub(self.inside.len())
    }

    pub fn copy(&self, work: &mut Work) -> Place {
        Place {
            space: self.space.copy(work),
            inside: work.copy(&self.inside),
        }
    }
}

/// A walk.
#[derive(Drop)]
pub struct Walk {
    pub place: Place,
    asked: AtomSet,
    left: Vec<Candidate>,
    deepest: usize,
}

impl Walk {
    /// A walk that has met no sum yet. Of each one so many of the deepest atoms may be opened.
    pub fn new(work: &mut Work, atoms: usize, deepest: usize) -> Walk {
        let alloc: Global = work.alloc;
        Walk {
            place: Place {
                space: Space::new(alloc),
                inside: Vec::new(alloc),
            },
            asked: AtomSet::new(work, atoms),
            left: Vec::new(alloc),
            deepest,
        }
    }

    /// Whether no further product may be opened.
    pub fn is_full(&self) -> bool {
        let rank = self.place.space.rank();
        self.place.inside.len() >= MOST_INSIDE || rank.saturating_add(64) > MOST_BITS
    }

    /// A sum has to be known: its products may be opened.
    pub fn meet(&mut self, work: &mut Work, scene: Scene, form: &Form, mark: &Vector) {
        work.spend(form.len() as u64);
        self.add(work, mark);
        let mut new = Vec::new(work.alloc);
        for term in form.terms() {
            let word = self.asked.take(term.place, term.word);
            push_atoms(work, &mut new, term.place, word);
        }
        for atom in &deepest(work, scene, &new, self.deepest) {
            self.ask(work, scene, *atom);
        }
    }

    // One more vector of the space.
    fn add(&mut self, work: &mut Work, vector: &Vector) {
        let Some(row) = self.place.space.add(work, vector) else {
            return;
        };
        work.spend(self.left.len() as u64);
        for candidate in &mut self.left {
            candidate.parts = less(&candidate.parts, row);
        }
    }

    // A product may be opened.
    fn ask(&mut self, work: &mut Work, scene: Scene, atom: u32) {
        let Some(made) = scene.atoms.made(atom) else {
            return;
        };
        if self.left.len() >= MOST_LEFT {
            return;
        }
        let space = &self.place.space;
        let parts = [
            space.reduced(work, &Vector::mark(atom)),
            space.reduced(work, &made.first),
            space.reduced(work, &made.second),
        ];
        let is_programs = scene.atoms.is_programs(atom);
        work.push(
            &mut self.left,
            Candidate {
                atom,
                is_programs,
                depth: made.depth,
                parts,
            },
        );
    }

    /// The next product to be opened.
    pub fn best(&self, work: &mut Work) -> Option<Opening> {
        work.spend(self.left.len() as u64);
        let mut best: Option<(Order, Opening)> = None;
        for (at, candidate) in self.left.iter().enumerate() {
            let order = order_of(candidate);
            if best.is_none_or(|b| order < b.0) {
                let rank = order.rank;
                best = Some((order, Opening { at, rank }));
            }
        }
        Some(best?.1)
    }

    /// Opens a product: its factors have to be known.
    pub fn open(&mut self, work: &mut Work, scene: Scene, opening: Opening) {
        if opening.at >= self.left.len() {
            return;
        }
        let candidate = self.left.swap_remove(opening.at);
        let atom = candidate.atom;
        work.push(&mut self.place.inside, atom);
        self.add(work, &Vector::mark(atom));
        if let (Some(known), Some(made)) = (scene.known(atom), scene.atoms.made(atom)) {
            self.meet(work, scene, &known.first, &made.first);
            self.meet(work, scene, &known.second, &made.second);
        }
    }
}

// Three vectors less a row.
fn less(parts: &[Vector; 3], row: Row) -> [Vector; 3] {
    let [one, two, three] = parts;
    [one.less(row), two.less(row), three.less(row)]
}

fn order_of(candidate: &Candidate) -> Order {
    let rank = rank_of(&candidate.parts);
    Order {
        growth: rank.saturating_sub(1),
        is_programs: candidate.is_programs,
        rank,
        depth_left: u32::MAX.saturating_sub(candidate.depth),
        atom_left: u32::MAX.saturating_sub(candidate.atom),
    }
}

// How many dimensions three vectors span.
fn rank_of(parts: &[Vector; 3]) -> u32 {
    let [one, mut two, mut three] = *parts;
    let mut rank = 0_u32;
    if let Some(lead) = one.lead() {
        let row = Row { lead, vector: one };
        (two, three) = (two.less(row), three.less(row));
        rank = rank.saturating_add(1);
    }
    if let Some(lead) = two.lead() {
        three = three.less(Row { lead, vector: two });
        rank = rank.saturating_add(1);
    }
    rank.saturating_add(u32::from(three.lead().is_some()))
}

// The deepest atoms, where there are more than so many.
fn deepest(work: &mut Work, scene: Scene, atoms: &[u32], most: usize) -> Vec<u32> {
    if atoms.len() <= most {
        return work.copy(atoms);
    }
    let mut by_depth = Vec::new(work.alloc);
    for atom in atoms {
        let left = u32::MAX.saturating_sub(scene.atoms.depth(*atom));
        work.push(&mut by_depth, (left, *atom));
    }
    work.note(by_depth.sort());
    let mut deepest = Vec::new(work.alloc);
    for (_, atom) in by_depth.iter().take(most) {
        work.push(&mut deepest, *atom);
    }
    deepest
}
