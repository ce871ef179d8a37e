// Lines, and the moves between them.
use crate::clock::Clock;
use crate::depth::depth;
use crate::forms::{Form, Forms};
use crate::free::Free;
use layer_orders::{Step, best_order};
use line_moves::{Gathering, Gatherings, Moves};
use plan_tools::{NOWHERE, Stop, Table, Work};
use std::alloc::Global;

// How many lines that hold the same are looked at.
const MOST_HOLDERS: usize = 64;

// How many forms that have a symbol are looked at.
const MOST_NEAR: usize = 16;

// The most units of work: looks at lines and symbols.
const MOST_WORK: u64 = 400_000_000;

// A temporary line, and the last layer in which it was used when it began to wait.
#[derive(Clone, Copy)]
struct Waiting {
    line: u32,
    layer: u32,
}

// A line, and how many copies take it to a form.
#[derive(Clone, Copy)]
struct Near {
    line: Option<u32>,
    copies: usize,
}

/// Lines, with the moves so far. Input lines hold their symbols, nodes stand on lines of their own.
/// A temporary line holds a sum of symbols until it is wanted for another one. No call fails: the
/// first refusal is kept, and told by `finish`.
#[derive(Drop)]
pub struct Lines {
    work: Work,
    moves: Moves,
    /// Each move as a gate.
    steps: Vec<Step>,
    limit: u32,
    clock: Clock,
    forms: Forms,
    free: Free,
    /// Of each symbol the line that holds it.
    homes: Table<u32>,
    inputs: u32,
    /// Temporary lines from the one that was not used for longest, and how many of these have been
    /// taken out.
    waiting: Vec<Waiting>,
    passed: usize,
}

impl Lines {
    /// Lines of inputs and of so many inputs and outputs together, with no moves, of `limit` in
    /// all, for so many symbols.
    pub fn new(alloc: Global, inputs: u32, ports: u32, limit: u32, symbols: usize) -> Lines {
        let mut work = Work::new(alloc, MOST_WORK);
        let clock = Clock::new(&mut work, limit);
        let forms = Forms::new(&mut work, alloc, symbols, limit);
        let mut homes = Table::new(&mut work, symbols, NOWHERE);
        for input in 0..inputs {
            homes.set(input, input);
        }
        Lines {
            work,
            moves: Moves::none(alloc),
            steps: Vec::new(alloc),
            limit,
            clock,
            forms,
            free: Free::new(alloc, ports, limit),
            homes,
            inputs,
            waiting: Vec::new(alloc),
            passed: 0,
        }
    }

    /// Whether something was refused.
    pub fn is_stopped(&self) -> bool {
        self.work.is_stopped()
    }

    /// The next boundary, and the layer behind it.
    pub fn advance(&mut self, now: u32) {
        self.clock.now = now;
    }

    /// The line that holds a symbol.
    pub fn home(&self, symbol: u32) -> u32 {
        self.homes.get(symbol)
    }

    /// How many copies a line takes part in at this boundary so far, or waits for.
    pub fn load(&self, line: u32) -> u32 {
        self.clock.load(line)
    }

    // ---- moves

    // Notes the next move as a gate.
    fn note(&mut self, reads: [u32; 2], target: u32, is_undone: bool) {
        let step = Step {
            reads,
            target,
            boundary: self.clock.now,
            is_undone,
        };
        self.work.push(&mut self.steps, step);
    }

    /// Copies a line to another; in the reversed part once more, or for good.
    pub fn copy(&mut self, from: u32, to: u32, is_undone: bool) {
        self.clock.note_copy(from, to);
        self.note([from, NOWHERE], to, is_undone);
        self.moves.copy(from, to);
    }

    /// Adds symbols to a line.
    pub fn add(&mut self, symbols: &[u32], to: u32) {
        for symbol in symbols {
            let from = self.source(*symbol, to);
            self.copy(from, to, true);
        }
    }

    /// Adds symbols to the line of an output, for good.
    pub fn add_output(&mut self, symbols: &[u32], output: u32) {
        let to = self.output_line(output);
        for symbol in symbols {
            let from = self.source(*symbol, to);
            self.copy(from, to, false);
        }
    }

    /// Toggles a node without a product onto the line where its bits, or it, stand.
    pub fn name(&mut self, node: u32, line: u32) {
        self.note([NOWHERE, NOWHERE], line, true);
        self.moves.name(node, line);
    }

    /// Toggles a node under two lines; in the reversed part once more, or for good.
    pub fn toggle(&mut self, node: u32, onto: u32, controls: [u32; 2], is_undone: bool) {
        self.note(controls, onto, is_undone);
        let [first, second] = controls;
        let gatherings = Gatherings {
            first: self.alone(first),
            second: self.alone(second),
        };
        let mut all = Vec::new(self.work.alloc);
        self.work.push(&mut all, gatherings);
        self.moves.toggle(node, onto, all);
    }

    // A factor that stands on one line.
    fn alone(&self, on: u32) -> Gathering {
        Gathering {
            on,
            others: Vec::new(self.work.alloc),
        }
    }

    // ---- lines that hold sums

    // Of the lines that hold a form, but for one, that which is free the soonest.
    fn holder(&mut self, form: Form, but: u32) -> Option<u32> {
        let mut best = None;
        let mut least = u32::MAX;
        for line in self.forms.holders(form).iter().take(MOST_HOLDERS) {
            self.work.spend(1);
            let load = self.clock.load(*line);
            if *line != but && load < least {
                best = Some(*line);
                least = load;
            }
        }
        best
    }

    // Of the lines that hold a symbol alone, but for one, that which is free the soonest.
    fn source(&mut self, symbol: u32, but: u32) -> u32 {
        let home = self.home(symbol);
        let form = self.forms.alone(symbol);
        match self.holder(form, but) {
            Some(line) if self.clock.load(line) < self.clock.load(home) => line,
            _ => home,
        }
    }

    // Takes a line from the form that it holds to another one, by what they differ in, or over
    // lines that hold one of the two; the line has no form then.
    fn change(&mut self, line: u32, to: Form) {
        let from = self.forms.held(line);
        if from != to {
            let mut old = self.work.copy(self.forms.sum(from));
            let mut new = self.work.copy(self.forms.sum(to));
            if self.is_copied(line, from, &old, &new) {
                old.clear();
            }
            if self.is_copied(line, to, &new, &old) {
                new.clear();
            }
            let left = self.work.sum_of(&old, &new);
            self.add(&left, line);
        }
        self.forms.leave(line);
    }

    // Adds a form by another line that holds it, where fewer symbols are left to be added then;
    // whether it did.
    fn is_copied(&mut self, line: u32, form: Form, sum: &[u32], other: &[u32]) -> bool {
        let difference = self.work.sum_of(sum, other).len();
        self.work.spend(difference as u64);
        if other.len().saturating_add(1) >= difference {
            return false;
        }
        match self.holder(form, line) {
            Some(from) => {
                self.copy(from, line, true);
                true
            }
            None => false,
        }
    }

    // A line that holds a sum, and has no form.
    fn take(&mut self, form: Form) -> u32 {
        let line = self.unused(form);
        self.change(line, form);
        line
    }

    // A line that is not used in this layer: one that holds the form, a free one, or else the
    // temporary one that was not used for longest. The work gives up where there is none.
    fn unused(&mut self, form: Form) -> u32 {
        if let Some(line) = self.unused_holder(form) {
            return line;
        }
        if let Some(line) = self.nearest(form) {
            return line;
        }
        if let Some(line) = self.free.take() {
            return line;
        }
        match self.longest() {
            Some(line) => line,
            None => {
                self.work.give_up();
                NOWHERE
            }
        }
    }

    fn unused_holder(&self, form: Form) -> Option<u32> {
        for line in self.forms.holders(form).iter().take(MOST_HOLDERS) {
            if !self.clock.is_used(*line) {
                return Some(*line);
            }
        }
        None
    }

    // Of the lines whose forms have a symbol of this one, and that are not used in this layer, that
    // which becomes it by the fewest copies; none where a free line takes no more.
    fn nearest(&mut self, form: Form) -> Option<u32> {
        let sum = self.work.copy(self.forms.sum(form));
        let mut best = Near {
            line: None,
            copies: sum.len(),
        };
        for symbol in &sum {
            best = self.nearer(&sum, *symbol, best);
        }
        best.line
    }

    // The best line so far, or a better one among those whose forms have a symbol.
    fn nearer(&mut self, sum: &[u32], symbol: u32, best: Near) -> Near {
        let mut best = best;
        let forms = self.work.copy(self.forms.latest(symbol, MOST_NEAR));
        self.work.spend(forms.len() as u64);
        for form in &forms {
            if let Some(line) = self.unused_holder(*form) {
                let copies = self.work.sum_of(sum, self.forms.sum(*form)).len();
                self.work.spend(copies as u64);
                if copies < best.copies {
                    best = Near {
                        line: Some(line),
                        copies,
                    };
                }
            }
        }
        best
    }

    // The temporary line that was not used for longest; none where it is used in this layer.
    fn longest(&mut self) -> Option<u32> {
        for place in self.passed..self.waiting.len() {
            let Waiting { line, layer } = self.waiting.get(place).copied()?;
            let waits = self.forms.held(line) != NOWHERE && self.clock.layer(line) == layer;
            if waits && self.clock.is_used(line) {
                return None;
            }
            self.passed = place.saturating_add(1);
            if waits {
                return Some(line);
            }
        }
        None
    }

    // A line that holds a sum is a temporary one, or free where the sum is empty.
    fn let_go(&mut self, line: u32, form: Form) {
        if form == NOWHERE {
            self.free.give(&mut self.work, line);
            return;
        }
        let layer = self.clock.layer(line);
        self.forms.hold(&mut self.work, line, form);
        self.work.push(&mut self.waiting, Waiting { line, layer });
    }

    // ---- nodes and factors

    /// Whether a temporary line that is not used in this layer holds a factor.
    pub fn is_held(&mut self, factor: &[u32]) -> bool {
        let form = self.forms.form(&mut self.work, factor);
        self.unused_holder(form).is_some()
    }

    /// A line that holds a factor, for this layer alone: the line of its symbol where that is
    /// alone and not used in the layer, or a temporary one.
    pub fn control(&mut self, factor: &[u32]) -> u32 {
        if let [symbol] = factor {
            let home = self.home(*symbol);
            if !self.clock.is_used(home) {
                self.clock.note_use(home);
                return home;
            }
        }
        let form = self.forms.form(&mut self.work, factor);
        let line = self.take(form);
        self.clock.note_use(line);
        self.let_go(line, form);
        line
    }

    /// A line is a control or a target in this layer.
    pub fn note_use(&mut self, line: u32) {
        self.clock.note_use(line);
    }

    /// A line for a node, that holds the sum of these symbols already.
    pub fn make(&mut self, node: u32, sum: &[u32]) -> u32 {
        let form = self.forms.form(&mut self.work, sum);
        let line = self.take(form);
        self.homes.set(self.inputs.saturating_add(node), line);
        line
    }

    /// The line of a node, which holds the sum of its bits now, and the node no more.
    pub fn leave(&mut self, node: u32, bits: &[u32]) {
        let symbol = self.inputs.saturating_add(node);
        let line = self.home(symbol);
        self.homes.set(symbol, NOWHERE);
        let form = self.forms.form(&mut self.work, bits);
        self.let_go(line, form);
    }

    /// Clears the temporary lines whose sums have a node.
    pub fn release(&mut self, node: u32) {
        let symbol = self.inputs.saturating_add(node);
        let forms = self.work.copy(self.forms.with(symbol));
        for form in &forms {
            self.clear_all(*form);
        }
    }

    // Clears the lines that hold a form.
    fn clear_all(&mut self, form: Form) {
        let lines = self.work.copy(self.forms.holders(form));
        for line in &lines {
            self.change(*line, NOWHERE);
            self.free.give(&mut self.work, *line);
        }
    }

    // ---- the end

    /// Puts the moves into a better order, appends those of the reversed part, and names so many
    /// outputs, which stand behind `nodes` nodes.
    pub fn reverse(&mut self, nodes: u32, outputs: u32) {
        self.sort();
        for place in (0..self.steps.len()).rev() {
            if self.steps.get(place).is_some_and(|step| step.is_undone) {
                self.moves.again(place);
            }
        }
        for output in 0..outputs {
            let line = self.output_line(output);
            self.moves.name(nodes.saturating_add(output), line);
        }
    }

    // Puts the moves into a better order, unless that takes too much work.
    fn sort(&mut self) {
        let mut work = Work::new(self.work.alloc, MOST_WORK);
        let order = best_order(&mut work, &self.steps, self.limit);
        match work.finish(order) {
            Ok(order) if order.len() == self.moves.len() => self.take_order(&order),
            Err(Stop::Memory(memory)) => self.work.stop(Stop::Memory(memory)),
            _ => {}
        }
    }

    fn take_order(&mut self, order: &[u32]) {
        let moves = self.work.take(&mut self.moves.list);
        let steps = self.work.take(&mut self.steps);
        for place in order {
            let place = *place as usize;
            if let (Some(one), Some(step)) = (moves.get(place), steps.get(place)) {
                self.work.push(&mut self.moves.list, *one);
                self.work.push(&mut self.steps, *step);
            }
        }
    }

    /// The lines so far times the cube of the depth of the moves that the reversed part undoes: of
    /// two plans the shallower one is better, unless it takes far more lines.
    pub fn cost(&mut self) -> u64 {
        let depth = u64::from(depth(&mut self.work, &self.steps, self.limit));
        let lines = u64::from(self.free.behind());
        let square = depth.saturating_mul(depth);
        square.saturating_mul(depth).saturating_mul(lines)
    }

    fn output_line(&self, output: u32) -> u32 {
        self.inputs.saturating_add(output)
    }

    /// The moves, behind so many lines of inputs and outputs.
    ///
    /// # Errors
    ///
    /// The first refusal.
    pub fn finish(self, ports: u32) -> Result<Moves, Stop> {
        self.work.finish(())?;
        let work = self.free.behind().saturating_sub(ports);
        self.moves.finish(ports, work)
    }
}
