// Which gates may go before each other.
use plan_tools::{NOWHERE, Table, Work, number};

/// A gate, by the lines that it reads, of which each may be `NOWHERE`, and the line that it
/// changes; where it reads none, it takes no time.
#[derive(Clone, Copy)]
pub struct Step {
    pub reads: [u32; 2],
    pub target: u32,
    /// The number of the boundary at which it stands, or of the layer behind that where it reads
    /// two lines.
    pub boundary: u32,
    /// Whether the reversed part has it too.
    pub is_undone: bool,
}

impl Step {
    /// Whether it reads two lines.
    pub fn is_toffoli(self) -> bool {
        let [first, second] = self.reads;
        first != NOWHERE && second != NOWHERE
    }

    /// How long it takes.
    pub fn duration(self) -> u32 {
        let [first, second] = self.reads;
        u32::from(first != NOWHERE || second != NOWHERE)
    }
}

/// A line of a gate, and the group in which the gate is there.
#[derive(Clone, Copy)]
pub struct Use {
    pub line: u32,
    pub group: u32,
}

// The last group of a line so far, and whether it changes the line.
#[derive(Clone, Copy)]
struct Last {
    group: u32,
    is_write: bool,
}

/// The gates in groups: on a line, gates that read it one behind the other are a group, and gates
/// that change it are. Those of one group commute, and groups go one behind the other.
#[derive(Drop)]
pub struct Groups {
    /// The uses of each gate.
    uses: Vec<[Use; 3]>,
    /// Of each group how many gates of it are not done.
    left: Table<u32>,
    /// Of each group the next one on its line.
    next: Table<u32>,
    /// Of each line the first group that is not done.
    current: Table<u32>,
    last: Table<Last>,
}

impl Groups {
    /// The groups of gates on so many lines.
    pub fn of(work: &mut Work, steps: &[Step], lines: u32) -> Groups {
        let none = Last {
            group: NOWHERE,
            is_write: false,
        };
        let mut groups = Groups {
            uses: Vec::new(work.alloc),
            left: Table::of(Vec::new(work.alloc), 0),
            next: Table::of(Vec::new(work.alloc), NOWHERE),
            current: Table::new(work, lines as usize, NOWHERE),
            last: Table::new(work, lines as usize, none),
        };
        for step in steps {
            groups.push(work, *step);
        }
        groups
    }

    fn push(&mut self, work: &mut Work, step: Step) {
        let [first, second] = step.reads;
        let uses = [
            self.used(work, first, false),
            self.used(work, second, false),
            self.used(work, step.target, true),
        ];
        work.push(&mut self.uses, uses);
    }

    // A gate more in the last group of a line, or in a new one.
    fn used(&mut self, work: &mut Work, line: u32, is_write: bool) -> Use {
        let last = self.last.get(line);
        if line == NOWHERE || last.group != NOWHERE && last.is_write == is_write {
            let count = self.left.get(last.group).saturating_add(1);
            self.left.set(last.group, count);
            return Use {
                line,
                group: last.group,
            };
        }
        let group = number(self.left.items().len());
        self.left.push(work, 1);
        self.next.push(work, NOWHERE);
        self.next.set(last.group, group);
        if last.group == NOWHERE {
            self.current.set(line, group);
        }
        self.last.set(line, Last { group, is_write });
        Use { line, group }
    }

    /// How many groups there are.
    pub fn count(&self) -> usize {
        self.left.items().len()
    }

    /// The uses of the gate at a place.
    pub fn uses(&self, place: u32) -> Option<[Use; 3]> {
        self.uses.get(place as usize).copied()
    }

    /// The next group on the line of one.
    pub fn next(&self, group: u32) -> u32 {
        self.next.get(group)
    }

    /// Whether all groups before those of a gate are done.
    pub fn is_ready(&self, uses: [Use; 3]) -> bool {
        for used in uses {
            if self.current.get(used.line) != used.group {
                return false;
            }
        }
        true
    }

    /// A gate is done.
    pub fn finish(&mut self, uses: [Use; 3]) {
        for used in uses {
            let left = self.left.get(used.group).saturating_sub(1);
            self.left.set(used.group, left);
            if left == 0 {
                let next = self.next(used.group);
                self.current.set(used.line, next);
            }
        }
    }
}
