// Bits of a tape on which nothing rests, and that seem to be equal to others.
use cut_search::Vector;
use plan_tools::{Table, Work};
use revs_tape::{Entry, Ref, Tape};
use std::collections::HashMap;

/// A bit on which nothing rests, and the first bit that has its values in some columns, or the
/// negated ones. For one that has the same value everywhere there is no other bit.
#[derive(Clone, Copy)]
pub struct Twin {
    pub unused: Ref,
    pub other: Option<Ref>,
    pub differs: bool,
}

/// The twins of a tape.
pub fn twins_of(work: &mut Work, tape: &Tape) -> Vec<Twin> {
    let used = used_in(work, tape);
    let mut values = Values::new(work, tape.inputs());
    let mut twins = Vec::new(work.alloc);
    let mut write: u32 = 0;
    for entry in tape.entries() {
        let twin = values.push(work, *entry, Ref::Write(write));
        if let (Some(twin), false) = (twin, used.get(write)) {
            work.push(&mut twins, twin);
        }
        write = write.saturating_add(1);
    }
    twins
}

// Of each write whether another one, a claim or an output is made of it.
fn used_in(work: &mut Work, tape: &Tape) -> Table<bool> {
    let mut used = Table::new(work, tape.entries().len(), false);
    for entry in tape.entries() {
        if let Entry::Xor(first, second) | Entry::And(first, second) = *entry {
            mark(&mut used, first);
            mark(&mut used, second);
        }
    }
    mark_ends(&mut used, tape);
    used
}

/// Marks the outputs of a tape, and the bits that it claims.
pub fn mark_ends(marks: &mut Table<bool>, tape: &Tape) {
    for output in tape.outputs() {
        mark(marks, *output);
    }
    for claim in tape.claims() {
        mark(marks, claim.of);
    }
}

/// Marks a write.
pub fn mark(marks: &mut Table<bool>, made: Ref) {
    if let Ref::Write(write) = made {
        marks.set(write, true);
    }
}

// The values of bits in 512 columns, and of each value that is met the first bit that has it.
#[derive(Drop)]
struct Values {
    inputs: Vec<Vector>,
    writes: Vec<Vector>,
    firsts: HashMap<u64, Ref>,
}

impl Values {
    // Of the inputs alone.
    fn new(work: &mut Work, inputs: u32) -> Values {
        let mut values = Values {
            inputs: Vec::new(work.alloc),
            writes: Vec::new(work.alloc),
            firsts: HashMap::new(work.alloc),
        };
        for input in 0..inputs {
            let mark = Vector::mark(input);
            work.push(&mut values.inputs, mark);
            values.meet(work, mark, Ref::Input(input));
        }
        values
    }

    fn of(&self, made: Ref) -> Vector {
        let value = match made {
            Ref::Input(input) => self.inputs.get(input as usize),
            Ref::Write(write) => self.writes.get(write as usize),
        };
        value.copied().unwrap_or(Vector::none())
    }

    // Takes the next write in; its twin, if it has one.
    fn push(&mut self, work: &mut Work, entry: Entry, made: Ref) -> Option<Twin> {
        let value = match entry {
            Entry::Const(bit) => Vector::all(bit),
            Entry::Xor(first, second) => self.of(first).plus(&self.of(second)),
            Entry::And(first, second) => self.of(first).times(&self.of(second)),
        };
        work.spend(1);
        work.push(&mut self.writes, value);
        self.meet(work, value, made)
    }

    fn meet(&mut self, work: &mut Work, value: Vector, made: Ref) -> Option<Twin> {
        let differs = is_odd(&value);
        let normal = value.plus(&Vector::all(differs));
        if normal.lead().is_none() {
            return Some(Twin {
                unused: made,
                other: None,
                differs,
            });
        }
        let key = normal.key();
        if let Some(first) = self.firsts.get(&key).copied() {
            return Some(Twin {
                unused: made,
                other: Some(first),
                differs: differs != is_odd(&self.of(first)),
            });
        }
        work.note(self.firsts.insert(key, made));
        None
    }
}

// The value in the first column.
fn is_odd(value: &Vector) -> bool {
    value.words[0] & 1 == 1
}
