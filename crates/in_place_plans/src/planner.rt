// The search: steps are begun in their order, and ended as soon as what is left gives all that is
// wanted later.
use crate::closing::Closing;
use crate::lines::{Flip, Lines};
use in_place_tasks::{Moments, Space, Task, Wanted, task_of_graph, task_of_tape};
use plan_tools::{Limits, Stop, Work, number};
use revs_tape::Tape;
use std::alloc::Global;
use sum_graph::SumGraph;

/// The most units of work: a unit is a vector that is looked at, or a word that is added.
const MOST_WORK: u64 = 1 << 31;

// The most times that a closing is tried.
const MOST_CLOSINGS: usize = 512;

// Where little is wanted, no less is so many products before and behind.
const AROUND: usize = 24;

// Sums of more lines than these are left on one of them, where steps are ended seldom.
const LONG: usize = 3;

/// How often it is tried to end steps.
#[derive(Clone, Copy)]
pub enum Pace {
    /// Behind each step, or 512 times where there are more.
    Often,
    /// Only where less is wanted than around.
    Seldom,
}

/// The gates of a circuit that puts the first so many outputs of a graph of single products on the
/// lines of its inputs and on the lines behind these, where its other outputs are these bits. The
/// lines are those of the inputs, one for each output beyond their number, then the work lines.
///
/// # Errors
///
/// `GaveUp` where no such circuit is found within the limits and 2^31 units of work; `Memory` where
/// memory is refused. No clause says so, or that the circuit is right.
pub fn plan(
    alloc: Global,
    graph: &SumGraph,
    outputs: usize,
    facts: &[bool],
    limits: Limits,
    pace: Pace,
) -> Result<Vec<Flip>, Stop> {
    let mut work = Work::new(alloc, MOST_WORK);
    let task = task_of_graph(&mut work, graph, outputs, facts);
    let moments = match pace {
        Pace::Often => Moments::Each(task.steps.len() / MOST_CLOSINGS + 1),
        Pace::Seldom => Moments::Least(AROUND),
    };
    planned(work, &task, limits, moments)
}

/// The same for a tape, all of whose outputs replace the inputs, with what its unused bits tell of
/// others. None where they tell nothing.
///
/// # Errors
///
/// As for [`plan`].
pub fn plan_tape(alloc: Global, tape: &Tape, limits: Limits) -> Result<Option<Vec<Flip>>, Stop> {
    let mut work = Work::new(alloc, MOST_WORK);
    let Some(task) = task_of_tape(&mut work, tape) else {
        return work.finish(None);
    };
    let flips = planned(work, &task, limits, Moments::Least(AROUND))?;
    Ok(Some(flips))
}

fn planned(work: Work, task: &Task, limits: Limits, moments: Moments) -> Result<Vec<Flip>, Stop> {
    let mut work = work;
    let mut planner = Planner::new(&mut work, task, limits, moments);
    planner.begin_all(&mut work);
    planner.finish(&mut work);
    planner.flush(&mut work);
    planner.place(&mut work);
    work.finish(planner.lines.gates)
}

#[derive(Drop)]
struct Planner<'t> {
    task: &'t Task,
    lines: Lines,
    wanted: Wanted,
    moments: Moments,
    // What the lines hold, with the constant.
    space: Space,
    // The steps whose products lines hold.
    held: Vec<u32>,
    // A step in the space that no line was given yet.
    waiting: Option<u32>,
}

impl<'t> Planner<'t> {
    fn new(work: &mut Work, task: &'t Task, limits: Limits, moments: Moments) -> Planner<'t> {
        let long = match moments {
            Moments::Each(_) => usize::MAX,
            Moments::Least(_) => LONG,
        };
        let mut space = Space::new(work, task.words);
        task.insert(work, &mut space, &[task.one]);
        for input in &task.inputs {
            task.insert(work, &mut space, input);
        }
        Planner {
            task,
            lines: Lines::new(work, task, limits, long),
            wanted: Wanted::of(work, task, moments),
            moments,
            space,
            held: Vec::new(work.alloc),
            waiting: None,
        }
    }

    // Begins each step whose product is not there, and closes behind it.
    fn begin_all(&mut self, work: &mut Work) {
        let task = self.task;
        for place in 0..task.steps.len() {
            if work.is_stopped() {
                return;
            }
            self.begin(work, number(place));
            if self.wanted.is_asked(place.saturating_add(1)) {
                self.close(work);
            }
        }
    }

    // Takes the product of a step into the space, where it is not there; the work gives up where a
    // factor is not.
    fn begin(&mut self, work: &mut Work, number: u32) {
        let task = self.task;
        let Some(step) = task.steps.get(number as usize) else {
            return;
        };
        if task.is_in(work, &self.space, &step.product) {
            work.push(&mut self.held, number);
            return;
        }
        if !task.is_in(work, &self.space, &step.first)
            || !task.is_in(work, &self.space, &step.second)
        {
            work.give_up();
        }
        self.flush(work);
        task.insert(work, &mut self.space, &step.product);
        work.push(&mut self.held, number);
        self.waiting = Some(number);
    }

    // Gives the waiting step a line.
    fn flush(&mut self, work: &mut Work) {
        let Some(number) = self.waiting else {
            return;
        };
        self.waiting = None;
        self.lines.begin(work, self.task, number);
    }

    // Ends what can be ended, where all that is wanted later stays.
    fn close(&mut self, work: &mut Work) {
        let wanted = self.wanted.next(work, self.task);
        let mut closing = Closing::new(work, self.task, wanted);
        closing.keep_chains(work, &self.space, &self.held);
        closing.grow(work, &self.space, &self.held);
        match self.moments {
            Moments::Each(_) => closing.keep_factors(work, &self.space, &self.held),
            Moments::Least(_) => closing.keep_few_factors(work, &self.space, &self.held),
        }
        closing.keep_inputs(work, &self.space, &self.held);
        if closing.is_done(&self.space) {
            self.fall(work, closing);
        }
    }

    // Ends the steps of a closing, from the last to the first. The last one may have no line yet.
    fn fall(&mut self, work: &mut Work, closing: Closing<'t>) {
        let task = self.task;
        let (space, grown, least) = closing.into_parts();
        if !grown.is_empty() && grown.last().copied() != self.waiting {
            self.flush(work);
        }
        let mut ending = self.lines.ending(work, space, least);
        let mut at = number(grown.len());
        for number in grown.iter().rev() {
            if work.is_stopped() {
                return;
            }
            at = at.saturating_sub(1);
            self.held.retain(|held| *held != *number);
            if self.waiting == Some(*number) {
                self.waiting = None;
                self.lines.skip(work, task, *number, &mut ending, at);
            } else {
                self.lines.end(work, task, *number, &mut ending, at);
            }
        }
        self.space = ending.into_space();
        if let Moments::Least(_) = self.moments {
            self.drop_lost(work);
        }
    }

    // Forgets the held steps whose products are not there any more.
    fn drop_lost(&mut self, work: &mut Work) {
        let mut held = Vec::new(work.alloc);
        for number in &self.held {
            if let Some(step) = self.task.steps.get(*number as usize) {
                if self.task.is_in(work, &self.space, &step.product) {
                    work.push(&mut held, *number);
                }
            }
        }
        self.held = held;
    }

    // Brings the outputs onto their lines.
    fn place(&mut self, work: &mut Work) {
        let mut outputs = Vec::new(work.alloc);
        for output in &self.task.outputs {
            let vector = self.task.vector(work, output);
            work.push(&mut outputs, vector);
        }
        self.lines.place(work, &outputs);
    }

    // Ends all steps, so that only the outputs are left. Steps that were ended too early are begun
    // once more for that. The work gives up where it cannot be.
    fn finish(&mut self, work: &mut Work) {
        let wanted = self.wanted.next(work, self.task);
        let first = wanted.copy(work);
        let mut closing = Closing::new(work, self.task, first);
        closing.grow(work, &self.space, &self.held);
        if closing.is_done(&self.space) {
            self.fall(work, closing);
            return;
        }
        closing.grow_beyond(work, &self.space);
        let (_, grown, _) = closing.into_parts();
        self.begin_again(work, &grown);
        let mut last = Closing::new(work, self.task, wanted);
        last.grow(work, &self.space, &grown);
        if !last.is_done(&self.space) {
            work.give_up();
        }
        self.fall(work, last);
    }

    // Begins those of some steps that are not in the space, each once its factors are.
    fn begin_again(&mut self, work: &mut Work, steps: &[u32]) {
        let task = self.task;
        for _ in 0..steps.len() {
            let mut begun = false;
            for number in steps {
                if self.can_begin(work, task, *number) {
                    self.begin(work, *number);
                    begun = true;
                }
            }
            if !begun || work.is_stopped() {
                return;
            }
        }
    }

    fn can_begin(&self, work: &mut Work, task: &Task, number: u32) -> bool {
        match task.steps.get(number as usize) {
            Some(step) => {
                !task.is_in(work, &self.space, &step.product)
                    && task.is_in(work, &self.space, &step.first)
                    && task.is_in(work, &self.space, &step.second)
            }
            None => false,
        }
    }
}
