// What a plan costs, as far as a sweep tells.
use crate::events::{End, Event, RowVector, Toggle};
use plan_tools::number;

/// The work lines and the gates of a plan. The CX gates are those of its replay, but that some of
/// them are then saved.
#[derive(Clone, Copy)]
pub struct Measures {
    pub work: u32,
    pub toffoli: u64,
    pub cx: u64,
}

impl Measures {
    /// Of nothing.
    pub const NONE: Measures = Measures {
        work: 0,
        toffoli: 0,
        cx: 0,
    };

    /// Those of these events, between these rows of inputs and ends.
    pub fn of(events: &[Event], first: &[RowVector], ends: &[End]) -> Measures {
        let mut count = Count {
            held: 0,
            block: None,
            measures: Measures::NONE,
        };
        for RowVector { vector, .. } in first {
            count.add_cx(2, vector.len().saturating_sub(1));
        }
        for end in ends {
            count.add_cx(1, end.rows.len());
        }
        for event in events {
            count.add(event);
        }
        count.measures
    }

    /// The CX and Toffoli gates.
    pub fn gates(self) -> u64 {
        self.toffoli.saturating_add(self.cx)
    }

    /// Whether it takes no more of anything.
    pub fn is_no_worse_than(self, other: Measures) -> bool {
        self.work <= other.work && self.toffoli <= other.toffoli && self.gates() <= other.gates()
    }
}

// What was counted, and the work lines that are held.
#[derive(Clone, Copy)]
struct Count {
    held: usize,
    /// Of the block, where it is in one, the work lines that are held in the end.
    block: Option<usize>,
    measures: Measures,
}

impl Count {
    fn add(&mut self, event: &Event) {
        match event {
            // A node that has a home is toggled once, and takes no work line.
            Event::On {
                toggle,
                rest: Some(_),
                ..
            } => self.add_toggle(1, toggle),
            Event::On {
                toggle,
                is_fresh,
                ..
            } => {
                self.add_toggle(self.times(), toggle);
                self.hold(usize::from(*is_fresh));
            }
            Event::Off { toggle, .. } => {
                self.add_toggle(self.times(), toggle);
                self.held = self.held.saturating_sub(1);
            }
            Event::Final { toggle } => self.add_toggle(1, toggle),
            Event::Part { toggle, .. } => self.add_toggle(2, toggle),
            Event::Open { rows } => {
                self.hold(rows.len());
                self.block = Some(self.held);
            }
            // Only the lines of the block's rows are still held.
            Event::Close { renewals, .. } => {
                self.held = self.block.take().unwrap_or(self.held);
                for end in renewals {
                    self.add_cx(2, end.rows.len().saturating_sub(1));
                }
            }
        }
    }

    // How often a toggle is done: what a block does is undone twice, at its end and on the way
    // back.
    fn times(&self) -> u64 {
        if self.block.is_some() { 4 } else { 2 }
    }

    // So many work lines more are held.
    fn hold(&mut self, lines: usize) {
        self.held = self.held.saturating_add(lines);
        self.measures.work = self.measures.work.max(number(self.held));
    }

    // The products of a toggle, so many times, and the additions of it and of what is gathered for
    // it, there and back.
    fn add_toggle(&mut self, times: u64, toggle: &Toggle) {
        let gates = (toggle.factors.len() as u64).saturating_mul(times);
        self.measures.toffoli = self.measures.toffoli.saturating_add(gates);
        self.add_cx(2, toggle.before.len());
        self.add_cx(2, toggle.after.len());
        for factors in &toggle.factors {
            self.add_cx(4, factors.first.len().saturating_sub(1));
            self.add_cx(4, factors.second.len().saturating_sub(1));
        }
    }

    fn add_cx(&mut self, times: u64, count: usize) {
        let gates = (count as u64).saturating_mul(times);
        self.measures.cx = self.measures.cx.saturating_add(gates);
    }
}
