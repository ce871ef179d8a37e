// Which narrow cuts are tried for some sums.
use crate::atoms::{Scene, mark_of};
use crate::walk::{MOST_INSIDE, MOST_LEFT, Opening, Place, Walk};
use linear_forms::Form;
use plan_tools::Work;
use sum_cuts::MOST_SUMS;

/// How far a walk goes.
#[derive(Clone, Copy)]
pub struct Range {
    /// Of each sum that is met, so many of the deepest atoms may be opened.
    deepest: usize,
    /// It goes on while the cut has at most so many sums.
    widest: usize,
    /// A cut of at most so many sums is tried.
    narrow: usize,
}

/// For a product: what is near to its factors.
pub const NEAR: Range = Range {
    deepest: 24,
    widest: 12,
    narrow: 10,
};

/// For a sum: all that it is made of.
pub const FAR: Range = Range {
    deepest: MOST_LEFT,
    widest: 192,
    narrow: MOST_SUMS,
};

/// A cut of at most so many sums is tried where the next opening widens it, though none narrowed
/// it.
const SMALL: usize = 5;

// What the openings of a walk did, and the cuts that were found on the way: the first one, and the
// last one if there is another.
#[derive(Drop)]
struct Found {
    range: Range,
    places: Vec<Place>,
    fell: bool,
    stayed: bool,
}

impl Found {
    // Whether a cut of this width is tried, where the next opening is this one.
    fn is_wanted(&self, width: usize, best: Option<Opening>) -> bool {
        if width > self.range.narrow {
            return false;
        }
        match best {
            Some(opening) => opening.rank > 1 && (self.fell || self.is_first(width)),
            None => self.fell || self.places.is_empty(),
        }
    }

    fn is_first(&self, width: usize) -> bool {
        self.stayed && self.places.is_empty() && width <= SMALL
    }

    fn keep(&mut self, work: &mut Work, place: &Place) {
        self.places.truncate(1);
        let place = place.copy(work);
        work.push(&mut self.places, place);
        self.fell = false;
    }
}

/// The cuts from which some sums may be computed, found by a walk that opens what widens its cut
/// least: the one after which the cut grows for the first time, and the last one, after which it
/// grows and since which it shrank. The last one comes last.
pub fn places_of(work: &mut Work, scene: Scene, goals: &[&Form], range: Range) -> Vec<Place> {
    let mut walk = Walk::new(work, scene.atoms.count(), range.deepest);
    for goal in goals {
        let mark = mark_of(work, goal);
        walk.meet(work, scene, goal, &mark);
    }
    let mut found = Found {
        range,
        places: Vec::new(work.alloc),
        fell: false,
        stayed: false,
    };
    for _ in 0..MOST_INSIDE {
        if !step(work, scene, &mut walk, &mut found) {
            break;
        }
    }
    found.places
}

// Opens the next product, and tells whether the walk goes on.
fn step(work: &mut Work, scene: Scene, walk: &mut Walk, found: &mut Found) -> bool {
    let best = walk.best(work);
    if found.is_wanted(walk.place.width(), best) {
        found.keep(work, &walk.place);
    }
    let Some(opening) = best else {
        return false;
    };
    walk.open(work, scene, opening);
    found.fell |= opening.rank == 0;
    found.stayed |= opening.rank <= 1;
    walk.place.width() <= found.range.widest && !walk.is_full() && !work.is_stopped()
}
