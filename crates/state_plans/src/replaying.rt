// The moves of what a sweep found: forward, and what is beneath the state back.
use crate::lives::Lines;
use line_moves::{Factor, Moves, Writing};
use plan_tools::{NOWHERE, Row, Stop, Table, Work, number};
use state_graphs::{StateGraph, StateNode};
use state_rows::Step;
use state_sweeps::Sweep;
use std::alloc::Global;

// A replay.
#[derive(Drop)]
struct Replay<'g> {
    work: Work,
    graph: &'g StateGraph,
    lines: &'g Lines,
    writing: Writing,
    /// Of each row that is a definition the place of its node.
    defined: Table<u32>,
    /// The ranges of moves that change lines of rows beneath.
    beneath: Vec<(usize, usize)>,
}

/// The moves of what a sweep found, on these lines.
pub fn moves_of(
    alloc: Global,
    graph: &StateGraph,
    sweep: &Sweep,
    lines: &Lines,
) -> Result<Moves, Stop> {
    let ports = graph.inputs.saturating_add(number(graph.outputs.len()));
    let mut work = Work::new(alloc, u64::MAX);
    let mut replay = Replay {
        defined: defined_by(&mut work, sweep),
        work,
        graph,
        lines,
        writing: Writing::new(alloc, ports.saturating_add(lines.work)),
        beneath: Vec::new(alloc),
    };
    replay.begin(sweep);
    for step in sweep.steps.iter().rev() {
        if replay.work.is_stopped() || replay.writing.moves.is_stopped() {
            break;
        }
        replay.play(step);
    }
    replay.undo();
    replay.name_outputs();
    replay.work.finish(())?;
    let writing = replay.writing;
    writing.moves.finish(ports, lines.work)
}

impl<'g> Replay<'g> {
    // The rows of the beginning on the lines of inputs. Their heads fall, so each adds inputs that
    // are still alone.
    fn begin(&mut self, sweep: &Sweep) {
        for first in &sweep.firsts {
            if let Some((head, others)) = first.vector.split_first() {
                let from = self.writing.moves.len();
                self.writing.moves.copies(others, *head);
                self.note_beneath(from);
            }
        }
    }

    // What was written from a move on is undone in the end.
    fn note_beneath(&mut self, from: usize) {
        let range = (from, self.writing.moves.len());
        self.work.push(&mut self.beneath, range);
    }

    fn play(&mut self, step: &Step) {
        let from = self.writing.moves.len();
        match step {
            Step::Add { from: row, to } => {
                self.add(*row, self.lines.line(*to));
                self.end(*to, from);
            }
            Step::Toggle {
                node,
                onto,
                first,
                second,
            } => {
                if let Some(node) = self.graph.node(*node) {
                    self.toggle(node, self.lines.line(*onto), first, second);
                }
                self.end(*onto, from);
            }
            _ => {}
        }
    }

    // Notes what was written for a row, where that is beneath.
    fn end(&mut self, row: Row, from: usize) {
        if self.lines.is_beneath(row) {
            self.note_beneath(from);
        }
    }

    // Toggles a node onto a line, and with it those without products that bring the line back to
    // the form in which it holds vectors.
    fn toggle(&mut self, node: &StateNode, onto: u32, first: &[Row], second: &[Row]) {
        if !node.is_sum() {
            let first = self.factor(first, &node.first_written);
            let second = self.factor(second, &node.second_written);
            self.writing.product(first, second);
            self.writing.toggle(node.name, onto, &[]);
        }
        for name in &node.written {
            self.writing.moves.name(*name, onto);
        }
    }

    // A factor, the sum of rows.
    fn factor(&mut self, rows: &[Row], written: &[u32]) -> Factor {
        let mut lines = Vec::new(self.work.alloc);
        let mut names = self.work.copy(written);
        for row in rows {
            match self.definition(*row) {
                Some(node) => self.work.append(&mut names, &node.written),
                None => self.work.push(&mut lines, self.lines.line(*row)),
            }
        }
        lines.sort_unstable();
        self.writing.factor(&lines, &names)
    }

    // The node of which a row is the definition.
    fn definition(&self, row: Row) -> Option<&'g StateNode> {
        self.graph.node(self.defined.get(row))
    }

    // Adds a row to a line.
    fn add(&mut self, row: Row, onto: u32) {
        let Some(node) = self.definition(row) else {
            return self.writing.moves.copy(self.lines.line(row), onto);
        };
        for name in &node.written {
            self.writing.moves.name(*name, onto);
        }
    }

    // What changed lines of rows beneath once more, from the last to the first.
    fn undo(&mut self) {
        let ranges = self.work.take(&mut self.beneath);
        for (from, to) in ranges.iter().rev() {
            self.again(*from, *to);
        }
    }

    // Moves of a range once more, from the last to the first.
    fn again(&mut self, from: usize, to: usize) {
        for place in (from..to).rev() {
            self.writing.moves.again(place);
        }
    }

    // The bits of each output's sum take their own form on its line, and it its name. That takes no
    // gates but those of constants.
    fn name_outputs(&mut self) {
        let mut line = self.graph.inputs;
        for output in &self.graph.outputs {
            self.name_all(&output.written, line);
            self.writing.moves.name(output.name, line);
            line = line.saturating_add(1);
        }
    }

    fn name_all(&mut self, names: &[u32], line: u32) {
        for name in names {
            self.writing.moves.name(*name, line);
        }
    }
}

// Of each row that is a definition the place of its node.
fn defined_by(work: &mut Work, sweep: &Sweep) -> Table<u32> {
    let mut defined = Table::new(work, sweep.rows as usize, NOWHERE);
    for step in &sweep.steps {
        if let Step::Define { row, node } = step {
            defined.set(*row, *node);
        }
    }
    defined
}
