// When lines are used.
use plan_tools::{Table, Work};

// How many copies a line took part in one behind the other at a boundary.
#[derive(Clone, Copy)]
struct Load {
    boundary: u32,
    copies: u32,
}

/// Which lines are busy at a boundary, and which in the layer behind it.
#[derive(Drop)]
pub struct Clock {
    /// The boundary, and the layer behind it.
    pub now: u32,
    loads: Table<Load>,
    /// Of each line the last layer in which it was a control or a target.
    layers: Table<u32>,
}

impl Clock {
    /// No line was used yet, of so many.
    pub fn new(work: &mut Work, lines: u32) -> Clock {
        let none = Load {
            boundary: 0,
            copies: 0,
        };
        Clock {
            now: 0,
            loads: Table::new(work, lines as usize, none),
            layers: Table::new(work, lines as usize, 0),
        }
    }

    /// How many copies a line takes part in at this boundary so far, or waits for.
    pub fn load(&self, line: u32) -> u32 {
        let load = self.loads.get(line);
        if load.boundary == self.now {
            load.copies
        } else {
            0
        }
    }

    /// A copy from one line to another, as soon as both are free.
    pub fn note_copy(&mut self, from: u32, to: u32) {
        let copies = self.load(from).max(self.load(to)).saturating_add(1);
        let load = Load {
            boundary: self.now,
            copies,
        };
        self.loads.set(from, load);
        self.loads.set(to, load);
    }

    /// The last layer in which a line was a control or a target.
    pub fn layer(&self, line: u32) -> u32 {
        self.layers.get(line)
    }

    /// Whether a line is a control or a target in this layer.
    pub fn is_used(&self, line: u32) -> bool {
        self.layer(line) >= self.now
    }

    /// A line is a control or a target in this layer.
    pub fn note_use(&mut self, line: u32) {
        self.layers.set(line, self.now);
    }
}
