// Lines with what they hold, and the gates that bring it there.
use crate::basis::Basis;
use in_place_tasks::{Space, Step, Task, add, flip, has, head_of, is_none, symbols_of};
use plan_tools::{Limits, NOWHERE, Table, Work, list_at, number, put};

/// A gate: the flip of its target where its controls are 1. A control that is not there is
/// `NOWHERE`.
#[derive(Clone, Copy)]
pub struct Flip {
    pub first: u32,
    pub second: u32,
    pub target: u32,
}

/// The lines so far, and the gates.
#[derive(Drop)]
pub struct Lines {
    pub contents: Vec<Vec<u64>>,
    pub gates: Vec<Flip>,
    pub basis: Basis,
    limits: Limits,
    // A sum of more lines than these is left on one of them, where a step begins.
    long: usize,
    one: u32,
    words: usize,
    // Of each step the line on which it was computed.
    homes: Table<u32>,
}

/// Steps that end, from the last to the first: a space that is left, then their products; and of
/// each line the products that its content has in this basis.
#[derive(Drop)]
pub struct Ending {
    space: Space,
    least: usize,
    parts: Vec<Vec<u64>>,
}

impl Lines {
    /// The lines of the inputs and of further outputs. A sum of more than so many lines is left on
    /// one of them, where a step begins.
    pub fn new(work: &mut Work, task: &Task, limits: Limits, long: usize) -> Lines {
        let mut lines = Lines {
            contents: Vec::new(work.alloc),
            gates: Vec::new(work.alloc),
            basis: Basis::new(work, task.one),
            limits,
            long,
            one: task.one,
            words: task.words,
            homes: Table::new(work, task.steps.len(), NOWHERE),
        };
        for input in &task.inputs {
            let content = task.vector(work, input);
            lines.hold(work, content);
        }
        for _ in task.inputs.len()..task.outputs.len() {
            lines.push(work);
        }
        lines
    }

    // One line more, with this content.
    fn hold(&mut self, work: &mut Work, content: Vec<u64>) {
        let line = number(self.contents.len());
        self.basis.widen(work, line);
        self.basis.insert(work, &content, line);
        work.push(&mut self.contents, content);
    }

    // One line more, which holds 0.
    fn push(&mut self, work: &mut Work) {
        let count = number(self.contents.len()).saturating_add(self.limits.borrow);
        if count >= self.limits.lines {
            work.give_up();
            return;
        }
        let content = work.filled(0, self.words);
        self.hold(work, content);
    }

    // A line that holds 0.
    fn free(&mut self, work: &mut Work) -> u32 {
        let mut line: u32 = 0;
        for content in &self.contents {
            if is_none(content) {
                return line;
            }
            line = line.saturating_add(1);
        }
        self.push(work);
        line
    }

    fn gate(&mut self, work: &mut Work, gate: Flip) {
        if self.gates.len() as u64 >= self.limits.gates {
            work.give_up();
            return;
        }
        work.push(&mut self.gates, gate);
    }

    /// Adds what one line holds to another.
    pub fn copy(&mut self, work: &mut Work, from: u32, to: u32) {
        let held = work.copy(list_at(&self.contents, from));
        if let Some(content) = self.contents.get_mut(to as usize) {
            add(content, &held);
        }
        self.basis.add(work, from, to);
        let gate = Flip {
            first: from,
            second: NOWHERE,
            target: to,
        };
        self.gate(work, gate);
    }

    /// Negates a line where what it holds has the constant apart from a vector.
    pub fn mend(&mut self, work: &mut Work, line: u32, vector: &[u64]) {
        let held = has(list_at(&self.contents, line), self.one);
        if held != has(vector, self.one) {
            self.negate(work, line);
        }
    }

    fn negate(&mut self, work: &mut Work, line: u32) {
        let one = self.one;
        if let Some(content) = self.contents.get_mut(line as usize) {
            flip(content, one);
        }
        let gate = Flip {
            first: NOWHERE,
            second: NOWHERE,
            target: line,
        };
        self.gate(work, gate);
    }

    /// Brings what one line holds onto another, which holds 0.
    pub fn shift(&mut self, work: &mut Work, from: u32, to: u32) {
        let content = work.copy(list_at(&self.contents, from));
        let none = work.filled(0, self.words);
        put(&mut self.contents, to, content);
        put(&mut self.contents, from, none);
        self.basis.shift(from, to);
        for (first, target) in [(from, to), (to, from)] {
            let gate = Flip {
                first,
                second: NOWHERE,
                target,
            };
            self.gate(work, gate);
        }
    }

    // ---- steps

    /// Computes a step on a line of its own, which holds the value of its node then, where lines
    /// have what that lacks.
    pub fn begin(&mut self, work: &mut Work, task: &Task, number: u32) {
        let Some(step) = task.steps.get(number as usize) else {
            return;
        };
        let (first, second) = (
            task.vector(work, &step.first),
            task.vector(work, &step.second),
        );
        self.settle(work, &first);
        self.settle(work, &second);
        let line = self.free(work);
        self.toggle(work, task, step, line);
        self.homes.set(number, line);
        let mut rest = task.vector(work, &step.value);
        let product = task.vector(work, &step.product);
        add(&mut rest, &product);
        if let Some(lines) = self.basis.lines_if_any(work, &rest) {
            self.gather(work, &lines, line);
        }
    }

    /// The lines, where a space is to be left and some steps are to end, whose products are behind
    /// so many vectors of it.
    pub fn ending(&self, work: &mut Work, space: Space, least: usize) -> Ending {
        let mut parts = Vec::new(work.alloc);
        for content in &self.contents {
            let part = space.parts_of(work, content, least);
            work.push(&mut parts, part);
        }
        Ending {
            space,
            least,
            parts,
        }
    }

    /// Ends a step, the one at this place of those that end, behind which no one is left; its line
    /// holds 0 then.
    pub fn end(&mut self, work: &mut Work, task: &Task, number: u32, ending: &mut Ending, at: u32) {
        let Some(step) = task.steps.get(number as usize) else {
            return;
        };
        let line = self.gathered(work, number, ending, at);
        let product = task.vector(work, &step.product);
        let mut rest = work.copy(list_at(&self.contents, line));
        add(&mut rest, &product);
        let lines = self.basis.lines_of(work, &rest);
        for from in symbols_of(work, &lines) {
            if from == line {
                work.give_up();
            }
            self.copy(work, from, line);
        }
        self.mend(work, line, &product);
        self.toggle(work, task, step, line);
        ending.forget(work, line);
    }

    /// The same for a step that no line was given: a line that differs by its product from what is
    /// to be left gets it.
    pub fn skip(
        &mut self,
        work: &mut Work,
        task: &Task,
        number: u32,
        ending: &mut Ending,
        at: u32,
    ) {
        let Some(step) = task.steps.get(number as usize) else {
            return;
        };
        let line = self.gathered(work, number, ending, at);
        if line != NOWHERE {
            self.toggle(work, task, step, line);
            ending.measure(work, line, list_at(&self.contents, line));
        }
    }

    // Takes a product out of the contents of all lines but one; that line, or `NOWHERE` where none
    // has it. It is that of the step, where this is one of those that had it.
    fn gathered(&mut self, work: &mut Work, number: u32, ending: &mut Ending, at: u32) -> u32 {
        let outside = ending.lines_with(work, at);
        let home = self.homes.get(number);
        let last = match outside.iter().copied().find(|line| *line == home) {
            Some(line) => line,
            None => outside.first().copied().unwrap_or(NOWHERE),
        };
        for line in outside {
            if line != last {
                self.copy(work, last, line);
                ending.add(work, last, line);
            }
        }
        last
    }

    // Adds the product of a step to a line; its factors are gathered on two other lines for it.
    fn toggle(&mut self, work: &mut Work, task: &Task, step: &Step, target: u32) {
        let (wanted, with) = (
            task.vector(work, &step.first),
            task.vector(work, &step.second),
        );
        let first = self.basis.lines_of(work, &wanted);
        let mut second = self.basis.lines_of(work, &with);
        if has(&first, target) || has(&second, target) {
            work.give_up();
        }
        let one = chosen(&first, &second, NOWHERE);
        if has(&second, one) {
            add(&mut second, &first);
            flip(&mut second, one);
        }
        let other = chosen(&second, &first, one);
        if one == NOWHERE || other == NOWHERE {
            work.give_up();
            return;
        }
        let before = self.gates.len();
        self.gather(work, &first, one);
        self.gather(work, &second, other);
        self.mend(work, one, &wanted);
        self.mend(work, other, &with);
        let behind = self.gates.len();
        let gate = Flip {
            first: one,
            second: other,
            target,
        };
        self.gate(work, gate);
        let product = task.vector(work, &step.product);
        self.change(work, target, &product);
        self.undo(work, before, behind);
    }

    // Leaves a sum of many lines on the one of them that holds the latest product.
    fn settle(&mut self, work: &mut Work, wanted: &[u64]) {
        let lines = self.basis.lines_of(work, wanted);
        let all = symbols_of(work, &lines);
        if all.len() <= self.long {
            return;
        }
        let (mut onto, mut least) = (NOWHERE, NOWHERE);
        for line in all {
            let head = head_of(list_at(&self.contents, line)).unwrap_or(NOWHERE);
            if head < least {
                least = head;
                onto = line;
            }
        }
        self.gather(work, &lines, onto);
    }

    // Adds a vector to the content of a line.
    fn change(&mut self, work: &mut Work, line: u32, vector: &[u64]) {
        self.basis.remove(work, line);
        if let Some(content) = self.contents.get_mut(line as usize) {
            add(content, vector);
            self.basis.insert(work, content, line);
        }
    }

    // Adds the other ones of some lines to one of them.
    fn gather(&mut self, work: &mut Work, lines: &[u64], onto: u32) {
        for line in symbols_of(work, lines) {
            if line != onto {
                self.copy(work, line, onto);
            }
        }
    }

    // Does the gates of a range, none of which has two controls, once more, from the last to the
    // first.
    fn undo(&mut self, work: &mut Work, before: usize, behind: usize) {
        for place in (before..behind).rev() {
            let Some(gate) = self.gates.get(place).copied() else {
                return;
            };
            if gate.first == NOWHERE {
                self.negate(work, gate.target);
            } else {
                self.copy(work, gate.first, gate.target);
            }
        }
    }
}

impl Ending {
    // The lines whose contents have the product at a place.
    fn lines_with(&self, work: &mut Work, at: u32) -> Vec<u32> {
        let mut lines = Vec::new(work.alloc);
        let mut line: u32 = 0;
        for part in &self.parts {
            if has(part, at) {
                work.push(&mut lines, line);
            }
            line = line.saturating_add(1);
        }
        lines
    }

    // The content of one line was added to that of another.
    fn add(&mut self, work: &mut Work, from: u32, to: u32) {
        let added = work.copy(list_at(&self.parts, from));
        if let Some(part) = self.parts.get_mut(to as usize) {
            add(part, &added);
        }
    }

    // A line holds this.
    fn measure(&mut self, work: &mut Work, line: u32, content: &[u64]) {
        let part = self.space.parts_of(work, content, self.least);
        put(&mut self.parts, line, part);
    }

    // A line holds 0.
    fn forget(&mut self, work: &mut Work, line: u32) {
        put(&mut self.parts, line, Vec::new(work.alloc));
    }

    /// The space that is left.
    pub fn into_space(self) -> Space {
        let mut space = self.space;
        space.shorten(self.least);
        space
    }
}

// One of some lines, if it can be one that is not among others; never this one.
fn chosen(lines: &[u64], others: &[u64], without: u32) -> u32 {
    let mut chosen = NOWHERE;
    let mut before = 0_u32;
    for place in 0..lines.len() {
        let mut apart = lines[place] & !others.get(place).copied().unwrap_or(0);
        let mut all = lines[place];
        if without / 64 == number(place) {
            apart &= !(1 << (without % 64));
            all &= !(1 << (without % 64));
        }
        if apart != 0 {
            return head_of(&[apart]).unwrap_or(0).saturating_add(before);
        }
        if all != 0 && chosen == NOWHERE {
            chosen = head_of(&[all]).unwrap_or(0).saturating_add(before);
        }
        before = before.saturating_add(64);
    }
    chosen
}
