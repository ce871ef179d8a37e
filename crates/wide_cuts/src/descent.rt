// Cuts for a sum that may be 0.
use crate::columns::column;
use cut_search::{
    Basis, Lead, MOST_INSIDE, MOST_LEFT, Opening, Place, Reader, Scene, Vector, Walk, mark_of,
};
use linear_forms::Form;
use plan_tools::{Work, number};
use std::alloc::Global;
use sum_cuts::{MOST_WIDE, Step, Steps};

/// Fewer sums than these are no cut that is tried.
pub const LEAST_SUMS: usize = 3;

/// The most functions that are looked at for an order of the sums.
const MOST_USES: usize = 1 << 20;

// How many sums a cut has, and how many products are inside.
#[derive(Clone, Copy)]
struct Size {
    width: usize,
    inside: usize,
}

/// A walk down from a sum that may be 0. It stops at cuts that may tell it, wide ones and narrow
/// ones.
#[derive(Drop)]
pub struct Descent {
    walk: Walk,
    last: Size,
    stayed: bool,
    is_over: bool,
}

impl Descent {
    pub fn new(work: &mut Work, scene: Scene, sum: &Form) -> Descent {
        let mut walk = Walk::new(work, scene.atoms.count(), MOST_LEFT);
        let mark = mark_of(work, sum);
        walk.meet(work, scene, sum, &mark);
        Descent {
            walk,
            last: Size {
                width: usize::MAX,
                inside: 0,
            },
            stayed: false,
            is_over: false,
        }
    }

    /// What is asked of the next cut, if there is one.
    pub fn next(&mut self, work: &mut Work, scene: Scene, sum: &Form) -> Option<Asked> {
        for _ in 0..MOST_INSIDE {
            if self.is_over || work.is_stopped() {
                return None;
            }
            let best = self.walk.best(work);
            if self.is_wanted(best) {
                self.last = self.size();
                self.is_over = best.is_none();
                return Asked::of(work, scene, &self.walk.place, sum);
            }
            self.open(work, scene, best?);
        }
        None
    }

    fn open(&mut self, work: &mut Work, scene: Scene, opening: Opening) {
        self.walk.open(work, scene, opening);
        self.stayed = opening.rank <= 1;
        self.is_over = self.walk.is_full() || self.walk.place.width() > MOST_WIDE;
    }

    fn size(&self) -> Size {
        Size {
            width: self.walk.place.width(),
            inside: self.walk.place.inside.len(),
        }
    }

    // Whether a cut is tried: where all is opened, or where the next opening widens it as the last
    // one did not, if it is narrower than the last one, or has more products inside: an eighth more
    // where the next opening widens it by one.
    fn is_wanted(&self, best: Option<Opening>) -> bool {
        let (size, last) = (self.size(), self.last);
        if size.width < LEAST_SUMS {
            return false;
        }
        match best {
            Some(opening) if opening.rank > 1 && self.stayed => {
                let more = if opening.rank > 2 { 0 } else { last.inside / 8 };
                size.width < last.width || size.inside > last.inside.saturating_add(more)
            }
            Some(_) => false,
            None => true,
        }
    }
}

/// A cut for a sum, and what is proposed of it.
#[derive(Drop)]
pub struct Asked {
    sums: Vec<Form>,
    pub steps: Steps,
}

impl Asked {
    /// What is asked of the cut at a place. The first sums are those that are used first.
    fn of(work: &mut Work, scene: Scene, place: &Place, sum: &Form) -> Option<Asked> {
        let basis = Basis::of(work, scene, place, &[sum]);
        let mut reader = Reader::new(work, &basis);
        let given = forms_of(work, &basis.leads);
        let mut inside = work.copy(&place.inside);
        work.note(inside.sort());
        let mut steps = Vec::new(work.alloc);
        for atom in &inside {
            let step = step_of(work, scene, &reader, &given, *atom)?;
            work.push(&mut steps, step);
            reader.put(
                work,
                *atom,
                given.len().saturating_add(steps.len().saturating_mul(2)),
            );
        }
        let goal = reader.reading(work, &given, sum)?;
        let mut steps = Steps { steps, goal };
        let order = first_uses(work, &steps, given.len());
        rename(work, &mut steps, &order);
        let sums = in_order(work, &given, &order);
        Some(Asked { sums, steps })
    }

    /// Whether the sum is 1 in some columns of values of the cut's sums: then the cut does not tell
    /// that it is 0.
    pub fn is_refuted(&self, work: &mut Work) -> bool {
        let mut values = columns(work, number(self.sums.len()));
        for step in &self.steps.steps {
            let first = values_at(work, &values, &step.first);
            let second = values_at(work, &values, &step.second);
            work.push(&mut values, first);
            work.push(&mut values, first.times(&second));
        }
        values_at(work, &values, &self.steps.goal).lead().is_some()
    }

    /// The sums of the cut.
    pub fn sums(&self, work: &mut Work) -> Vec<Form> {
        let mut sums = Vec::new(work.alloc);
        for sum in &self.sums {
            copy_to(work, &mut sums, sum);
        }
        sums
    }
}

// The values of 1 and of the sums of a cut.
fn columns(work: &mut Work, sums: u32) -> Vec<Vector> {
    let mut values = work.copy(&[Vector::all(true)]);
    for sum in 0..sums {
        work.push(&mut values, column(sum, sums));
    }
    values
}

// The values of the sum of the functions at some places.
fn values_at(work: &mut Work, values: &[Vector], places: &[usize]) -> Vector {
    work.spend(places.len() as u64);
    let mut sum = Vector::none();
    for place in places {
        if let Some(value) = values.get(*place) {
            sum = sum.plus(value);
        }
    }
    sum
}

fn forms_of(work: &mut Work, leads: &[Lead]) -> Vec<Form> {
    let mut forms = Vec::new(work.alloc);
    for lead in leads {
        copy_to(work, &mut forms, &lead.form);
    }
    forms
}

fn copy_to(work: &mut Work, forms: &mut Vec<Form>, form: &Form) {
    if let Some(copy) = work.note(form.copy()) {
        work.push(forms, copy);
    }
}

// A product as a function of a cut.
fn step_of(
    work: &mut Work,
    scene: Scene,
    reader: &Reader,
    sums: &[Form],
    atom: u32,
) -> Option<Step> {
    let known = scene.known(atom)?;
    Some(Step {
        place: scene.atoms.made(atom)?.place,
        first: reader.reading(work, sums, &known.first)?,
        second: reader.reading(work, sums, &known.second)?,
    })
}

// The sums of a cut in the order in which a search in depth from the goal meets them, the last
// products first: so the sums of one place of an adder are variables side by side.
fn first_uses(work: &mut Work, steps: &Steps, sums: usize) -> Vec<usize> {
    let places = steps.steps.len().saturating_mul(2).saturating_add(sums);
    let mut uses = Uses {
        sums,
        seen: work.filled(false, places.saturating_add(1)),
        left: Vec::new(work.alloc),
        order: Vec::new(work.alloc),
    };
    uses.ask(work, &steps.goal);
    for _ in 0..MOST_USES {
        let Some(place) = uses.left.pop() else {
            break;
        };
        uses.visit(work, steps, place);
    }
    uses.order
}

// The functions of a cut that were met, those that are left to look at, and the sums by their
// first use.
#[derive(Drop)]
struct Uses {
    sums: usize,
    seen: Vec<bool>,
    left: Vec<usize>,
    order: Vec<usize>,
}

impl Uses {
    fn visit(&mut self, work: &mut Work, steps: &Steps, place: usize) {
        match self.seen.get_mut(place) {
            Some(seen) if !*seen => *seen = true,
            _ => return,
        }
        if place <= self.sums {
            work.push(&mut self.order, place);
            return;
        }
        let at = (place.saturating_sub(self.sums) / 2).wrapping_sub(1);
        if let Some(step) = steps.steps.get(at) {
            self.ask(work, &step.first);
            self.ask(work, &step.second);
        }
    }

    // The products go on top, the last one first.
    fn ask(&mut self, work: &mut Work, places: &[usize]) {
        work.spend(places.len() as u64);
        for place in places {
            if *place > 0 && *place <= self.sums {
                work.push(&mut self.left, *place);
            }
        }
        for place in places {
            if *place > self.sums {
                work.push(&mut self.left, *place);
            }
        }
    }
}

// Gives the sums of a cut the numbers that they have in this order.
fn rename(work: &mut Work, steps: &mut Steps, order: &[usize]) {
    let mut names = work.filled(0, order.len().saturating_add(1));
    for (at, place) in order.iter().enumerate() {
        if let Some(name) = names.get_mut(*place) {
            *name = at.saturating_add(1);
        }
    }
    for step in &mut steps.steps {
        rename_in(&mut step.first, &names);
        rename_in(&mut step.second, &names);
    }
    rename_in(&mut steps.goal, &names);
}

fn rename_in(places: &mut [usize], names: &[usize]) {
    for place in places {
        if let Some(name) = names.get(*place) {
            *place = *name;
        }
    }
}

fn in_order(work: &mut Work, sums: &[Form], order: &[usize]) -> Vec<Form> {
    let mut ordered = Vec::new(work.alloc);
    for place in order {
        if let Some(sum) = sums.get(place.wrapping_sub(1)) {
            copy_to(work, &mut ordered, sum);
        }
    }
    ordered
}
