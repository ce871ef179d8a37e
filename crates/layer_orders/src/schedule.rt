// A list schedule of gates.
use crate::groups::{Groups, Step, Use};
use crate::heights::ranks;
use plan_tools::{NOWHERE, Table, Work};

// Gates in the making of their order.
#[derive(Drop)]
struct Schedule {
    groups: Groups,
    /// Of each gate how long it takes.
    durations: Table<u32>,
    /// Of each line when it is free.
    times: Table<u32>,
    /// The places of the gates that are done, in their new order.
    order: Vec<u32>,
    /// Those of the boundary, or of the layer, that are not, by their ranks.
    waiting: Vec<u32>,
    /// The first time at which one of these can be done that were not done for want of a free line.
    soonest: u32,
}

/// The places of gates on so many lines in a better order, in which none goes before another one
/// with which it does not commute: boundary by boundary, and layer by layer, at each time those
/// gates whose lines are free, the longest way to the end first. A unit of work is a look at a
/// gate.
pub fn best_order(work: &mut Work, steps: &[Step], lines: u32) -> Vec<u32> {
    let groups = Groups::of(work, steps, lines);
    let ranks = ranks(work, &groups, steps);
    let mut schedule = Schedule {
        groups,
        durations: durations(work, steps),
        times: Table::new(work, lines as usize, 0),
        order: Vec::new(work.alloc),
        waiting: Vec::new(work.alloc),
        soonest: 0,
    };
    let mut batch = 0;
    for rank in &ranks {
        if rank.batch != batch {
            schedule.clear(work);
            batch = rank.batch;
        }
        work.push(&mut schedule.waiting, rank.place);
    }
    schedule.clear(work);
    schedule.order
}

fn durations(work: &mut Work, steps: &[Step]) -> Table<u32> {
    let mut durations = Table::of(Vec::new(work.alloc), 0);
    for step in steps {
        durations.push(work, step.duration());
    }
    durations
}

impl Schedule {
    // Does all gates that wait. Each second pass does one at least.
    fn clear(&mut self, work: &mut Work) {
        let mut now = 0;
        for _ in 0..self.waiting.len().saturating_mul(2) {
            if self.waiting.is_empty() || work.is_stopped() {
                return;
            }
            now = self.pass(work, now);
        }
        if !self.waiting.is_empty() {
            work.give_up();
        }
    }

    // Does the gates that can be done at a time; the next time.
    fn pass(&mut self, work: &mut Work, now: u32) -> u32 {
        let before = self.order.len();
        self.soonest = NOWHERE;
        let waiting = work.take(&mut self.waiting);
        work.spend(waiting.len() as u64);
        for place in &waiting {
            self.try_gate(work, *place, now);
        }
        if self.order.len() > before {
            now.saturating_add(1)
        } else {
            self.soonest
        }
    }

    // Does a gate, if that can be at this time.
    fn try_gate(&mut self, work: &mut Work, place: u32, now: u32) {
        let Some(uses) = self.groups.uses(place) else {
            return;
        };
        let is_ready = self.groups.is_ready(uses);
        let time = self.time(uses);
        if is_ready && time <= now {
            self.groups.finish(uses);
            let end = now.saturating_add(self.durations.get(place));
            self.take_time(uses, end);
            work.push(&mut self.order, place);
            return;
        }
        if is_ready {
            self.soonest = self.soonest.min(time);
        }
        work.push(&mut self.waiting, place);
    }

    // When all lines of a gate are free.
    fn time(&self, uses: [Use; 3]) -> u32 {
        let mut time = 0;
        for used in uses {
            time = self.times.get(used.line).max(time);
        }
        time
    }

    fn take_time(&mut self, uses: [Use; 3], end: u32) {
        for used in uses {
            self.times
                .set(used.line, end.max(self.times.get(used.line)));
        }
    }
}
