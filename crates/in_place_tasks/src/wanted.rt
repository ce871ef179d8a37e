// What is wanted later.
use crate::spaces::Space;
use crate::task::Task;
use plan_tools::Work;

/// Behind which steps it is asked what is wanted.
#[derive(Clone, Copy)]
pub enum Moments {
    /// Behind the first one, and then behind each so many more.
    Each(usize),
    /// Where less is wanted than so many steps before and behind.
    Least(usize),
}

/// What is wanted at some moments: the constant, and the outputs and the factors of later steps so
/// far as they are made of earlier ones.
#[derive(Drop)]
pub struct Wanted {
    // The vectors of all these spaces, and how many there are now.
    space: Space,
    dimension: usize,
    // The last one first.
    parts: Vec<Part>,
}

// Behind how many steps it is wanted, and the places of the vectors.
#[derive(Drop)]
struct Part {
    steps: usize,
    dimension: usize,
    places: Vec<u32>,
}

impl Wanted {
    /// What is wanted at these moments, and behind all steps.
    pub fn of(work: &mut Work, task: &Task, moments: Moments) -> Wanted {
        let mut wanted = Wanted {
            space: Space::new(work, task.words),
            dimension: 0,
            parts: Vec::new(work.alloc),
        };
        wanted.insert(work, task, &[task.one]);
        for output in &task.outputs {
            wanted.insert(work, task, output);
        }
        wanted.note(work, usize::MAX);
        for place in (0..task.steps.len()).rev() {
            let steps = place.saturating_add(1);
            match moments {
                Moments::Each(gap) if place.checked_rem(gap) == Some(0) => wanted.note(work, steps),
                Moments::Least(around) => wanted.note_least(work, steps, around),
                Moments::Each(_) => {}
            }
            wanted.pass(work, task, place);
        }
        wanted
    }

    fn insert(&mut self, work: &mut Work, task: &Task, symbols: &[u32]) {
        if task.insert(work, &mut self.space, symbols) {
            self.dimension = self.dimension.saturating_add(1);
        }
    }

    fn note(&mut self, work: &mut Work, steps: usize) {
        let places = self.space.all_places(work);
        let dimension = self.dimension;
        let part = Part {
            steps,
            dimension,
            places,
        };
        work.push(&mut self.parts, part);
    }

    // Instead of the next moments, so far as more is wanted then; if not, those count.
    fn note_least(&mut self, work: &mut Work, steps: usize, around: usize) {
        let most = steps.saturating_add(around);
        for _ in 0..around {
            match self.parts.last() {
                Some(part) if part.steps <= most && part.dimension > self.dimension => {
                    self.parts.pop();
                }
                Some(part) if part.steps <= most => return,
                _ => break,
            }
        }
        self.note(work, steps);
    }

    // From what is wanted behind a step to what is wanted before it.
    fn pass(&mut self, work: &mut Work, task: &Task, place: usize) {
        if work.is_stopped() {
            return;
        }
        let Some(step) = task.steps.get(place) else {
            return;
        };
        self.insert(work, task, &step.first);
        self.insert(work, task, &step.second);
        if !self.space.leave_out(work, task.symbol(place)) {
            self.dimension = self.dimension.saturating_sub(1);
        }
    }

    /// Whether it is asked what is wanted behind so many steps.
    pub fn is_asked(&self, steps: usize) -> bool {
        match self.parts.last() {
            Some(part) => part.steps == steps,
            None => false,
        }
    }

    /// What is wanted at the next moment.
    pub fn next(&mut self, work: &mut Work, task: &Task) -> Space {
        match self.parts.pop() {
            Some(part) => self.space.part(work, &part.places, task.words),
            None => Space::new(work, task.words),
        }
    }
}
