// The task of a tape, with what its unused bits tell.
use crate::spaces::Space;
use crate::task::{Step, Task};
use crate::twins::{Twin, mark, mark_ends, twins_of};
use plan_tools::{Table, Work, list_at, number};
use revs_tape::{Entry, Kind, Ref, Tape};

/// The most symbols: products, inputs and the constant.
const MOST_SYMBOLS: u32 = 32_768;

/// The task of a tape: each AND is a product. A bit on which nothing rests, and that has the values
/// of another one in some columns, is taken to be equal to it. None where no such bit tells more
/// than its own sum.
pub fn task_of_tape(work: &mut Work, tape: &Tape) -> Option<Task> {
    let twins = twins_of(work, tape);
    if twins.is_empty() {
        return None;
    }
    let asked = asked_in(work, tape, &twins);
    let products = products_in(tape, &asked);
    let mut writing = Writing {
        task: Task::new(work, products, tape.inputs(), MOST_SYMBOLS),
        sums: Vec::new(work.alloc),
    };
    let mut write: u32 = 0;
    for entry in tape.entries() {
        let is_asked = asked.get(write);
        writing.push(work, *entry, is_asked);
        write = write.saturating_add(1);
    }
    writing.set_outputs(work, tape);
    let mut zeros = writing.zeros(work, &twins);
    if zeros.dimension() == 0 {
        return None;
    }
    writing.learn_claims(work, tape, &mut zeros);
    Some(writing.task.without(work, &zeros))
}

// How many ANDs are asked for.
fn products_in(tape: &Tape, asked: &Table<bool>) -> u32 {
    let mut products: u32 = 0;
    let mut write: u32 = 0;
    for entry in tape.entries() {
        if let (Entry::And(_, _), true) = (*entry, asked.get(write)) {
            products = products.saturating_add(1);
        }
        write = write.saturating_add(1);
    }
    products
}

// Of each write whether an output, a claim or a twin rests on it.
fn asked_in(work: &mut Work, tape: &Tape, twins: &[Twin]) -> Table<bool> {
    let entries = tape.entries();
    let mut asked = Table::new(work, entries.len(), false);
    mark_ends(&mut asked, tape);
    for twin in twins {
        mark(&mut asked, twin.unused);
        if let Some(other) = twin.other {
            mark(&mut asked, other);
        }
    }
    for place in (0..entries.len()).rev() {
        if !asked.get(number(place)) {
            continue;
        }
        if let Entry::Xor(first, second) | Entry::And(first, second) = entries[place] {
            mark(&mut asked, first);
            mark(&mut asked, second);
        }
    }
    asked
}

// A tape whose bits are written as falling lists of symbols.
#[derive(Drop)]
struct Writing {
    task: Task,
    sums: Vec<Vec<u32>>,
}

impl Writing {
    fn sum(&self, work: &mut Work, made: Ref) -> Vec<u32> {
        match made {
            Ref::Input(input) => work.copy(&[self.task.input(input)]),
            Ref::Write(write) => work.copy(list_at(&self.sums, write)),
        }
    }

    // Writes the next bit, where it is asked for.
    fn push(&mut self, work: &mut Work, entry: Entry, is_asked: bool) {
        let sum = match entry {
            _ if !is_asked => Vec::new(work.alloc),
            Entry::Const(false) => Vec::new(work.alloc),
            Entry::Const(true) => work.copy(&[self.task.one]),
            Entry::Xor(first, second) => {
                let (first, second) = (self.sum(work, first), self.sum(work, second));
                work.sum_of(&first, &second)
            }
            Entry::And(first, second) => {
                let (first, second) = (self.sum(work, first), self.sum(work, second));
                self.product(work, first, second)
            }
        };
        work.spend(sum.len() as u64);
        work.push(&mut self.sums, sum);
    }

    // The product of two sums: the symbol of a step, where it is not one of them or 0.
    fn product(&mut self, work: &mut Work, first: Vec<u32>, second: Vec<u32>) -> Vec<u32> {
        let one = self.task.one;
        let apart = work.sum_of(&first, &second);
        if first.is_empty() || second.is_empty() || is_only(&apart, one) {
            return Vec::new(work.alloc);
        }
        if is_only(&first, one) || apart.is_empty() {
            return second;
        }
        if is_only(&second, one) {
            return first;
        }
        let count = self.task.steps.len();
        let symbol = self.task.symbol(count);
        let step = Step {
            first,
            second,
            product: work.copy(&[symbol]),
            value: work.copy(&[symbol]),
        };
        work.push(&mut self.task.steps, step);
        work.copy(&[symbol])
    }

    fn set_outputs(&mut self, work: &mut Work, tape: &Tape) {
        for output in tape.outputs() {
            let sum = self.sum(work, *output);
            work.push(&mut self.task.outputs, sum);
        }
    }

    // What is 0 by the twins.
    fn zeros(&self, work: &mut Work, twins: &[Twin]) -> Space {
        let mut zeros = Space::new(work, self.task.words);
        for twin in twins {
            let unused = self.sum(work, twin.unused);
            let other = match twin.other {
                Some(other) => self.sum(work, other),
                None => Vec::new(work.alloc),
            };
            let apart = work.sum_of(&unused, &other);
            self.learn(work, &mut zeros, apart, twin.differs);
        }
        zeros
    }

    // And what is 0 by the claims.
    fn learn_claims(&self, work: &mut Work, tape: &Tape, zeros: &mut Space) {
        for claim in tape.claims() {
            let claimed = self.sum(work, claim.of);
            self.learn(work, zeros, claimed, claim.kind == Kind::Assert);
        }
    }

    // A sum has this value.
    fn learn(&self, work: &mut Work, zeros: &mut Space, sum: Vec<u32>, value: bool) {
        let one = work.copy(&[self.task.one]);
        let zero = if value { work.sum_of(&sum, &one) } else { sum };
        self.task.learn(work, zeros, &zero);
    }
}

// Whether a symbol stands alone.
fn is_only(symbols: &[u32], symbol: u32) -> bool {
    match symbols {
        [only] => *only == symbol,
        _ => false,
    }
}
