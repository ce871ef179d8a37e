// Which line each row has.
use plan_tools::{NOWHERE, Row, Table, Work, number};
use state_graphs::StateGraph;
use state_rows::{Layer, Step};
use state_sweeps::Sweep;
use std::collections::BTreeSet;

/// Behind all moments of a sweep.
const NEVER: u32 = u32::MAX;

/// The lines of the rows of a sweep.
#[derive(Drop)]
pub struct Lines {
    /// Of each row its line, and whether it is one beneath.
    rows: Table<Life>,
    /// How many work lines there are.
    pub work: u32,
}

// When a row has a line, in moments of the sweep, which go back from the end: from the one behind
// which it is there, up to the one at which it begins.
#[derive(Clone, Copy)]
struct Life {
    from: u32,
    to: u32,
    is_beneath: bool,
    line: u32,
}

// A line that may be taken from one moment on, up to another one.
#[derive(Clone, Copy, PartialEq, Eq, PartialOrd, Ord)]
struct Span {
    from: u32,
    to: u32,
    line: u32,
}

impl Life {
    const NONE: Life = Life {
        from: NEVER,
        to: NEVER,
        is_beneath: false,
        line: NOWHERE,
    };
}

impl Lines {
    /// The line of a row.
    pub fn line(&self, row: Row) -> u32 {
        self.rows.get(row).line
    }

    /// Whether a row is beneath.
    pub fn is_beneath(&self, row: Row) -> bool {
        self.rows.get(row).is_beneath
    }

    /// Lines for the rows of a sweep. Each takes one that is free over its whole life: a row of the
    /// state an output's line before its output begins there, then any an input's line behind the
    /// end of its first row, then a work line, of these the one that is free for the longest. It
    /// takes time near linear in the steps and rows.
    pub fn of(work: &mut Work, graph: &StateGraph, sweep: &Sweep) -> Lines {
        let mut lines = Lines {
            rows: Table::new(work, sweep.rows as usize, Life::NONE),
            work: 0,
        };
        lines.live_outputs(graph, sweep);
        lines.live(sweep);
        lines.live_inputs(sweep);
        let mut free = Free::of(work, graph, sweep, &lines);
        for (_, row) in lines.without_lines(work) {
            let life = lines.rows.get(row);
            let line = free.take(work, life);
            lines.rows.set(row, Life { line, ..life });
        }
        lines.work = free.next.saturating_sub(free.ports);
        lines
    }

    // The rows that have no line yet, by the moments at which they come.
    fn without_lines(&self, work: &mut Work) -> Vec<(u32, Row)> {
        let mut keys = Vec::new(work.alloc);
        for (row, life) in self.rows.items().iter().enumerate() {
            if life.line == NOWHERE && life.from != NEVER {
                work.push(&mut keys, (life.from, number(row)));
            }
        }
        keys.sort_unstable();
        keys
    }

    // The rows that end as outputs, on the lines of these.
    fn live_outputs(&mut self, graph: &StateGraph, sweep: &Sweep) {
        for end in &sweep.ends {
            let life = Life {
                from: 0,
                line: graph.inputs.saturating_add(end.output),
                ..Life::NONE
            };
            self.rows.set(end.row, life);
        }
    }

    // The lives of rows.
    fn live(&mut self, sweep: &Sweep) {
        let mut moment: u32 = 1;
        for step in &sweep.steps {
            self.pass(step, moment);
            moment = moment.saturating_add(1);
        }
    }

    // The rows of the beginning, on the lines of inputs.
    fn live_inputs(&mut self, sweep: &Sweep) {
        for first in &sweep.firsts {
            if let Some(line) = first.vector.first() {
                let life = self.rows.get(first.row);
                self.rows.set(
                    first.row,
                    Life {
                        line: *line,
                        ..life
                    },
                );
            }
        }
    }

    // A row is there behind a moment.
    fn come(&mut self, row: Row, from: u32, is_beneath: bool) {
        let life = Life {
            from,
            is_beneath,
            ..Life::NONE
        };
        self.rows.set(row, life);
    }

    // Notes where rows come and begin.
    fn pass(&mut self, step: &Step, moment: u32) {
        match step {
            Step::End { row, layer } => {
                self.come(*row, moment, *layer == Layer::Beneath);
            }
            Step::Last(row) => self.come(*row, 0, true),
            Step::Begin(row) => {
                let life = self.rows.get(*row);
                self.rows.set(*row, Life { to: moment, ..life });
            }
            Step::Add { .. } | Step::Toggle { .. } | Step::Define { .. } => {}
        }
    }
}

// The lines that are free.
#[derive(Drop)]
struct Free {
    /// The lines of outputs, and the work lines, by the moments from which they are free.
    outputs: BTreeSet<(u32, u32)>,
    work: BTreeSet<(u32, u32)>,
    inputs: InputLines,
    /// How many lines of inputs and outputs there are.
    ports: u32,
    /// The line behind the work lines.
    next: u32,
}

impl Free {
    fn of(work: &mut Work, graph: &StateGraph, sweep: &Sweep, lines: &Lines) -> Free {
        let ports = graph.inputs.saturating_add(number(graph.outputs.len()));
        let begins = begins_of(work, graph, sweep, lines);
        Free {
            outputs: outputs_of(work, graph, &begins),
            work: BTreeSet::new(work.alloc),
            inputs: InputLines::of(work, sweep, lines),
            ports,
            next: ports,
        }
    }

    // A line for a life.
    fn take(&mut self, work: &mut Work, life: Life) -> u32 {
        if !life.is_beneath
            && let Some(line) = take_from(work, &mut self.outputs, life)
        {
            return line;
        }
        if let Some(line) = self.inputs.take(work, life) {
            return line;
        }
        if let Some(line) = take_from(work, &mut self.work, life) {
            return line;
        }
        let line = self.next;
        work.note(self.work.insert((life.to, line)));
        self.next = line.saturating_add(1);
        line
    }
}

// The lines of inputs behind the ends of their first rows.
#[derive(Drop)]
struct InputLines {
    /// Those that are free, by the moments up to which they are.
    free: BTreeSet<(u32, u32)>,
    /// Those that are free later on.
    later: BTreeSet<Span>,
}

impl InputLines {
    fn of(work: &mut Work, sweep: &Sweep, lines: &Lines) -> InputLines {
        let mut free = BTreeSet::new(work.alloc);
        for first in &sweep.firsts {
            let life = lines.rows.get(first.row);
            if life.from > 0 {
                work.note(free.insert((life.from, life.line)));
            }
        }
        InputLines {
            free,
            later: BTreeSet::new(work.alloc),
        }
    }

    // Takes the line that is free for the shortest time of those that are free over a life. The
    // moments at which lives come rise.
    fn take(&mut self, work: &mut Work, life: Life) -> Option<u32> {
        self.pass(work, life.from);
        let (to, line) = *self.free.range((life.to, 0)..).next()?;
        let _ = self.free.remove(&(to, line));
        let from = life.to;
        work.note(self.later.insert(Span { from, to, line }));
        Some(line)
    }

    // At a moment: those that are free from there on.
    fn pass(&mut self, work: &mut Work, moment: u32) {
        for _ in 0..self.later.len() {
            let Some(span) = self.later.pop_first() else {
                return;
            };
            if span.from > moment {
                work.note(self.later.insert(span));
                return;
            }
            work.note(self.free.insert((span.to, span.line)));
        }
    }
}

// Takes the line that is free for the longest, if it is free by then.
fn take_from(work: &mut Work, free: &mut BTreeSet<(u32, u32)>, life: Life) -> Option<u32> {
    let (from, line) = free.pop_first()?;
    if from > life.from {
        work.note(free.insert((from, line)));
        return None;
    }
    work.note(free.insert((life.to, line)));
    Some(line)
}

// Of each output the moment at which its row begins; 0 where it has none.
fn begins_of(work: &mut Work, graph: &StateGraph, sweep: &Sweep, lines: &Lines) -> Table<u32> {
    let mut begins = Table::new(work, graph.outputs.len(), 0);
    for end in &sweep.ends {
        begins.set(end.output, lines.rows.get(end.row).to);
    }
    begins
}

// The lines of outputs, which are free from these moments on.
fn outputs_of(work: &mut Work, graph: &StateGraph, begins: &Table<u32>) -> BTreeSet<(u32, u32)> {
    let mut outputs = BTreeSet::new(work.alloc);
    let mut line = graph.inputs;
    for moment in begins.items() {
        work.note(outputs.insert((*moment, line)));
        line = line.saturating_add(1);
    }
    outputs
}
