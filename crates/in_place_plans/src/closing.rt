// Which steps can be ended: what is to be left grows by the products that it gives, until it is all
// that is there.
use in_place_tasks::{Space, Step, Task};
use plan_tools::Work;

/// A space that is to be left, grown by the products of steps.
#[derive(Drop)]
pub struct Closing<'t> {
    task: &'t Task,
    space: Space,
    // The dimension of what is to be left.
    least: usize,
    grown: Vec<u32>,
}

impl<'t> Closing<'t> {
    /// Nothing is grown.
    pub fn new(work: &Work, task: &'t Task, wanted: Space) -> Closing<'t> {
        Closing {
            task,
            least: wanted.dimension(),
            space: wanted,
            grown: Vec::new(work.alloc),
        }
    }

    /// Whether it is as large as what is there.
    pub fn is_done(&self, there: &Space) -> bool {
        self.space.dimension() >= there.dimension()
    }

    /// The space, the steps by which it grew, and its dimension before that.
    pub fn into_parts(self) -> (Space, Vec<u32>, usize) {
        (self.space, self.grown, self.least)
    }

    /// Leaves the factors of held steps whose products or values are to be left, from the last to
    /// the first. Nothing is grown yet.
    pub fn keep_chains(&mut self, work: &mut Work, there: &Space, held: &[u32]) {
        let task = self.task;
        for number in held.iter().rev() {
            if self.is_done(there) {
                return;
            }
            if let Some(step) = task.steps.get(*number as usize) {
                if self.has(work, &step.value) || self.has(work, &step.product) {
                    self.keep(work, there, &step.first);
                    self.keep(work, there, &step.second);
                }
            }
        }
    }

    // Whether a sum is to be left.
    fn has(&self, work: &mut Work, symbols: &[u32]) -> bool {
        self.task.is_in(work, &self.space, symbols)
    }

    // Leaves a sum that is there.
    fn keep(&mut self, work: &mut Work, there: &Space, symbols: &[u32]) {
        if self.task.is_in(work, there, symbols) {
            self.task.insert(work, &mut self.space, symbols);
            self.least = self.space.dimension();
        }
    }

    /// Grows by held steps as long as it can and there is more.
    pub fn grow(&mut self, work: &mut Work, there: &Space, held: &[u32]) {
        for _ in 0..held.len() {
            let before = self.grown.len();
            self.pass(work, there, held);
            let more = self.grown.len() > before;
            if !more || self.is_done(there) || work.is_stopped() {
                return;
            }
        }
    }

    fn pass(&mut self, work: &mut Work, there: &Space, held: &[u32]) {
        let task = self.task;
        for number in held {
            if self.is_done(there) {
                return;
            }
            if let Some(step) = task.steps.get(*number as usize) {
                if self.task.is_in(work, there, &step.product) {
                    self.take(work, step, *number);
                }
            }
        }
    }

    // Grows by a step whose factors are there.
    fn take(&mut self, work: &mut Work, step: &Step, number: u32) {
        if !self.has(work, &step.first) || !self.has(work, &step.second) {
            return;
        }
        if self.task.insert(work, &mut self.space, &step.product) {
            work.push(&mut self.grown, number);
        }
    }

    // Begins to grow once more, with one sum more to be left.
    fn leave(&mut self, work: &mut Work, symbols: &[u32]) -> bool {
        self.space.shorten(self.least);
        self.grown.truncate(0);
        let is_new = self.task.insert(work, &mut self.space, symbols);
        self.least = self.space.dimension();
        is_new
    }

    /// Leaves the factors of the held steps by which it does not grow, since they are wanted when
    /// these end.
    pub fn keep_factors(&mut self, work: &mut Work, there: &Space, held: &[u32]) {
        for _ in 0..held.len() {
            if !self.keep_more_factors(work, there, held) || work.is_stopped() {
                return;
            }
            self.grow(work, there, held);
        }
    }

    // Leaves such factors; whether there are any that were not left before.
    fn keep_more_factors(&mut self, work: &mut Work, there: &Space, held: &[u32]) -> bool {
        let task = self.task;
        let grown = self.grown.len();
        let known = work.copy(&self.grown);
        let mut more = false;
        for number in held {
            let Some(step) = task.steps.get(*number as usize) else {
                continue;
            };
            if known.contains(number) || !task.is_in(work, there, &step.product) {
                continue;
            }
            for factor in [&step.first, &step.second] {
                if task.is_in(work, there, factor) && self.leave(work, factor) {
                    more = true;
                }
            }
        }
        if !more && grown > 0 {
            self.grow(work, there, held);
        }
        more
    }

    /// The same, where it grows again behind each factor: so few factors are left.
    pub fn keep_few_factors(&mut self, work: &mut Work, there: &Space, held: &[u32]) {
        for _ in 0..there.dimension() {
            let Some(lacking) = self.lacking(work, there, held) else {
                return;
            };
            self.leave(work, lacking);
            self.grow(work, there, held);
        }
    }

    // What is to be left next, so that each held step can end some time, if anything is.
    fn lacking(&self, work: &mut Work, there: &Space, held: &[u32]) -> Option<&'t [u32]> {
        for number in held {
            if work.is_stopped() {
                return None;
            }
            let step = self.task.steps.get(*number as usize)?;
            let lacking = self.lacking_for(work, there, step);
            if lacking.is_some() {
                return lacking;
            }
        }
        None
    }

    // A factor of a step that is not to be left, where its product is there and does not end now;
    // or else the product, where that is not to be left.
    fn lacking_for(&self, work: &mut Work, there: &Space, step: &'t Step) -> Option<&'t [u32]> {
        let stays = self.is_left(work, &step.product);
        if !stays
            && (self.has(work, &step.product) || !self.task.is_in(work, there, &step.product))
        {
            return None;
        }
        for factor in [&step.first, &step.second] {
            if !self.is_left(work, factor) && self.task.is_in(work, there, factor) {
                return Some(factor);
            }
        }
        if stays { None } else { Some(&step.product) }
    }

    // Whether a sum is to be left, and not only grown.
    fn is_left(&self, work: &mut Work, symbols: &[u32]) -> bool {
        let vector = self.task.vector(work, symbols);
        self.space.first_span(work, &vector, self.least)
    }

    /// Leaves inputs, one after another, until it grows to all that is there.
    pub fn keep_inputs(&mut self, work: &mut Work, there: &Space, held: &[u32]) {
        let task = self.task;
        for input in &task.inputs {
            if self.is_done(there) || work.is_stopped() {
                return;
            }
            if task.is_in(work, there, input) && !self.has(work, input) {
                self.leave(work, input);
                self.grow(work, there, held);
            }
        }
    }

    /// Grows by any step, also by those whose products are not there, until all that is there is in
    /// it.
    pub fn grow_beyond(&mut self, work: &mut Work, there: &Space) {
        let task = self.task;
        for _ in 0..task.steps.len() {
            let before = self.grown.len();
            let mut place: u32 = 0;
            for step in &task.steps {
                self.take(work, step, place);
                place = place.saturating_add(1);
            }
            let more = self.grown.len() > before;
            if !more || work.is_stopped() || self.space.covers(work, there) {
                return;
            }
        }
    }
}
