// The moves of a plan.
use crate::shortening::shorten;
use plan_tools::{Stop, Work, number};
use std::alloc::Global;

/// The most moves of a plan.
const MOST_MOVES: u64 = 5_000_000;

/// A move between lines: a copy, or a toggle of a node, whose gatherings stand at a place of a
/// list.
#[derive(Clone, Copy)]
pub enum Move {
    Copy { from: u32, to: u32 },
    Toggle { node: u32, onto: u32, place: u32 },
}

/// A factor as the sum of lines: `others` are added to `on` for the moment.
#[derive(Drop)]
pub struct Gathering {
    pub on: u32,
    pub others: Vec<u32>,
}

/// Where the two factors of a product are gathered.
#[derive(Drop)]
pub struct Gatherings {
    pub first: Gathering,
    pub second: Gathering,
}

/// The moves of a plan in their order, with the gatherings of its toggles. No call fails: the first
/// refusal is kept, and told by `finish`.
#[derive(Drop)]
pub struct Moves {
    /// How many work lines there are, behind the lines of inputs and outputs.
    pub work: u32,
    pub list: Vec<Move>,
    pub gatherings: Vec<Vec<Gatherings>>,
    pub(crate) room: Work,
}

impl Moves {
    /// No moves.
    pub fn none(alloc: Global) -> Moves {
        Moves {
            work: 0,
            list: Vec::new(alloc),
            gatherings: Vec::new(alloc),
            room: Work::new(alloc, MOST_MOVES),
        }
    }

    /// How many there are.
    pub fn len(&self) -> usize {
        self.list.len()
    }

    /// Whether something was refused.
    pub fn is_stopped(&self) -> bool {
        self.room.is_stopped()
    }

    /// Keeps why the planner stops, where nothing was refused before.
    pub fn stop(&mut self, stop: Stop) {
        self.room.stop(stop);
    }

    // Appends a move, where there is room for it.
    fn push(&mut self, step: Move) {
        self.room.spend(1);
        if !self.room.is_stopped() {
            self.room.push(&mut self.list, step);
        }
    }

    /// Appends a copy.
    pub fn copy(&mut self, from: u32, to: u32) {
        self.push(Move::Copy { from, to });
    }

    /// Appends copies of some lines to one.
    pub fn copies(&mut self, lines: &[u32], to: u32) {
        for line in lines {
            self.copy(*line, to);
        }
    }

    /// Appends a toggle.
    pub fn toggle(&mut self, node: u32, onto: u32, gatherings: Vec<Gatherings>) {
        let place = number(self.gatherings.len());
        self.room.push(&mut self.gatherings, gatherings);
        self.push(Move::Toggle { node, onto, place });
    }

    /// Appends the toggle of a node without products.
    pub fn name(&mut self, node: u32, onto: u32) {
        self.toggle(node, onto, Vec::new(self.room.alloc));
    }

    /// Appends the move at a place once more.
    pub fn again(&mut self, place: usize) {
        if place < self.list.len() {
            let step = self.list[place];
            self.push(step);
        } else {
            self.room.give_up();
        }
    }

    /// The moves with fewer copies, where nothing was refused. Behind so many lines of inputs and
    /// outputs there are `work` work lines.
    ///
    /// # Errors
    ///
    /// The first refusal.
    pub fn finish(mut self, ports: u32, work: u32) -> Result<Moves, Stop> {
        self.work = work;
        shorten(&mut self, ports.saturating_add(work));
        match self.room.finish(()) {
            Ok(()) => Ok(self),
            Err(stop) => Err(stop),
        }
    }
}
