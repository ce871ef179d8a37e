// The moves of a plan.
use crate::draft::{Draft, Toggle};
use crate::nodes::Nodes;
use bit_sums::Sum;
use dependency_graph::Base;
use line_moves::{Factor, Moves, Writing};
use plan_tools::{NOWHERE, Stop, Table, Work};
use std::alloc::Global;
use sum_graph::SumGraph;

// The most bits that are added to sets of bits, as each bit of a sum is to those before it.
const MOST_WORK: u64 = 400_000_000;

/// The moves of the plan with this forward part: its toggles; the outputs whose lines are no home;
/// and the toggles from the last to the first, where in place of one at home the output is added.
///
/// # Errors
///
/// The first refusal.
pub fn moves_of<'n>(alloc: Global, graph: &'n SumGraph, draft: &Draft<'n>) -> Result<Moves, Stop> {
    let mut script = Script::begun(alloc, graph, draft);
    script.write_forward(&draft.toggles);
    script.write_outputs();
    script.write_back(&draft.toggles);
    script.finish(draft.lines())
}

// Moves in the making, and the line on which each node stands.
#[derive(Drop)]
struct Script<'n> {
    graph: &'n SumGraph,
    nodes: &'n Nodes,
    writing: Writing,
    lines: Table<u32>,
    work: Work,
}

impl<'n> Script<'n> {
    fn begun(alloc: Global, graph: &'n SumGraph, draft: &Draft<'n>) -> Script<'n> {
        let mut work = Work::new(alloc, MOST_WORK);
        let lines = Table::new(&mut work, draft.nodes.count as usize, NOWHERE);
        Script {
            graph,
            nodes: draft.nodes,
            writing: Writing::new(alloc, draft.lines()),
            lines,
            work,
        }
    }

    fn write_forward(&mut self, toggles: &[Toggle]) {
        for toggle in toggles {
            self.turn(*toggle);
        }
    }

    fn write_outputs(&mut self) {
        for output in 0..self.nodes.outputs {
            if self.nodes.guest(output).is_none() {
                self.add_output(output);
            }
        }
    }

    fn write_back(&mut self, toggles: &[Toggle]) {
        for toggle in toggles.iter().rev() {
            match self.nodes.home(toggle.node) {
                Some(output) => self.add_output(output),
                None => self.turn(*toggle),
            }
        }
    }

    // Toggles a node, which then stands on the line, or not any more.
    fn turn(&mut self, toggle: Toggle) {
        let Toggle { node, line } = toggle;
        if node < self.graph.nodes() {
            self.add(self.graph.node(node), node, line);
        }
        let is_held = self.lines.get(node) != NOWHERE;
        self.lines.set(node, if is_held { NOWHERE } else { line });
    }

    // Adds an output, which stands behind the nodes, to its line.
    fn add_output(&mut self, output: u32) {
        let line = self.nodes.inputs.saturating_add(output);
        let node = self.nodes.count.saturating_add(output);
        if let Some(sum) = self.graph.outputs().get(output as usize) {
            self.add(sum, node, line);
        }
    }

    // Adds a sum to a line, on which one of its bits may stand.
    fn add(&mut self, sum: &Sum, node: u32, onto: u32) {
        let bits = sum.bits().len() as u64;
        self.work.spend(bits.saturating_mul(bits));
        if self.work.is_stopped() {
            return;
        }
        for base in sum.bits() {
            let from = self.line_of(*base);
            if from != onto {
                self.writing.moves.copy(from, onto);
            }
        }
        for product in sum.products() {
            let first = self.factor(product.first());
            let second = self.factor(product.second());
            self.writing.product(first, second);
        }
        self.writing.toggle(node, onto, &[]);
    }

    // The lines of a factor's bits, rising.
    fn factor(&mut self, bits: &[Base]) -> Factor {
        let mut lines = Vec::new(self.work.alloc);
        for base in bits {
            let line = self.line_of(*base);
            self.work.push(&mut lines, line);
        }
        lines.sort_unstable();
        self.writing.factor(&lines, &[])
    }

    fn line_of(&self, base: Base) -> u32 {
        match base {
            Base::Input(input) => input,
            Base::Node(node) => self.lines.get(node),
        }
    }

    // The moves, with fewer copies.
    fn finish(self, lines: u32) -> Result<Moves, Stop> {
        let ports = self.nodes.ports();
        self.work.finish(())?;
        self.writing
            .moves
            .finish(ports, lines.saturating_sub(ports))
    }
}
