// Pebbling by halves (Bennett, Time/space trade-offs for reversible computation, 1989).
use crate::draft::Draft;
use plan_tools::{Table, Work};

// The nodes from `start` on, up to `end`.
#[derive(Clone, Copy)]
struct Range {
    start: u32,
    end: u32,
}

impl Range {
    fn len(self) -> u32 {
        self.end.saturating_sub(self.start)
    }

    // The first half has no fewer nodes than the second.
    fn halves(self) -> (Range, Range) {
        let mid = self.start.saturating_add(self.len().div_ceil(2));
        let left = Range {
            start: self.start,
            end: mid,
        };
        let right = Range {
            start: mid,
            end: self.end,
        };
        (left, right)
    }
}

// A set of nodes of a range.
#[derive(Drop)]
struct Marks {
    start: u32,
    are_marked: Table<bool>,
}

impl Marks {
    fn none(work: &mut Work, range: Range) -> Marks {
        Marks {
            start: range.start,
            are_marked: Table::new(work, range.len() as usize, false),
        }
    }

    fn has(&self, node: u32) -> bool {
        node >= self.start && self.are_marked.get(node - self.start)
    }

    // Adds a node, where it is one of the range.
    fn add(&mut self, node: u32) {
        if node >= self.start {
            self.are_marked.set(node - self.start, true);
        }
    }
}

impl Draft<'_> {
    /// Holds and clears nodes by halves, down to `depth` halvings: what the second half needs of
    /// the first is held, then what is needed in the end of the second, and then the first half is
    /// cleared of what is not.
    pub fn pebble(&mut self, depth: u32) {
        let all = Range {
            start: 0,
            end: self.nodes.count,
        };
        let none = Marks::none(&mut self.work, all);
        let ends = self.needed_behind(all, &none);
        self.raise(depth, all, &ends);
    }

    // The wanted nodes of a range, and those that are used behind it.
    fn needed_behind(&mut self, range: Range, wanted: &Marks) -> Marks {
        let mut needed = Marks::none(&mut self.work, range);
        for node in range.start..range.end {
            if wanted.has(node) || self.nodes.last_use(node) >= range.end {
                needed.add(node);
            }
        }
        needed
    }

    // Holds the wanted nodes of a range of which none is held, and maybe more of its second half.
    fn raise(&mut self, depth: u32, range: Range, wanted: &Marks) {
        self.work.spend(u64::from(range.len()));
        if self.work.is_stopped() {
            return;
        }
        if depth == 0 || range.len() <= 1 {
            self.hold_all(range, wanted);
            return;
        }
        let (left, right) = range.halves();
        let needed = self.needed_behind(left, wanted);
        self.change(depth - 1, left, &needed);
        self.raise(depth - 1, right, wanted);
    }

    // Holds the wanted nodes of a range, and no others of it.
    fn change(&mut self, depth: u32, range: Range, wanted: &Marks) {
        self.work.spend(u64::from(range.len()));
        if self.work.is_stopped() || !self.differs(range, wanted) {
            return;
        }
        if depth == 0 || range.len() <= 1 {
            self.hold_all(range, wanted);
            self.clear_others(range, wanted);
            return;
        }
        let (left, right) = range.halves();
        let needed = self.needed_behind(left, wanted);
        self.change(depth - 1, left, &needed);
        self.change(depth - 1, right, wanted);
        self.change(depth - 1, left, wanted);
    }

    // Whether a node is held and not wanted, or wanted and not held.
    fn differs(&self, range: Range, wanted: &Marks) -> bool {
        for node in range.start..range.end {
            if self.is_held(node) != wanted.has(node) {
                return true;
            }
        }
        false
    }

    // Holds the nodes that are wanted and not held, and those of the range on which they rest, or
    // the nodes that are held and not wanted.
    fn hold_all(&mut self, range: Range, wanted: &Marks) {
        let mut marks = Marks::none(&mut self.work, range);
        for node in (range.start..range.end).rev() {
            if marks.has(node) || self.is_held(node) != wanted.has(node) {
                marks.add(node);
                self.mark_operands(&mut marks, node);
            }
        }
        for node in range.start..range.end {
            if marks.has(node) {
                self.hold(node);
            }
        }
    }

    // Marks what a node rests on.
    fn mark_operands(&mut self, marks: &mut Marks, node: u32) {
        let operands = self.nodes.operands(node);
        self.work.spend(operands.len() as u64);
        for operand in operands {
            marks.add(*operand);
        }
    }

    // Clears the nodes of a range that are not wanted.
    fn clear_others(&mut self, range: Range, wanted: &Marks) {
        for node in (range.start..range.end).rev() {
            if !wanted.has(node) {
                self.clear(node);
            }
        }
    }
}
