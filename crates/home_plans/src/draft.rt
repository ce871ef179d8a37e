// Plans in the making, before they have moves: which nodes stand on which lines.
use crate::nodes::Nodes;
use crate::weight::Weight;
use plan_tools::{FreeLines, Limits, NOWHERE, Size, Stop, Table, Work};
use std::alloc::Global;

/// A toggle of a node onto a line.
#[derive(Clone, Copy)]
pub struct Toggle {
    pub node: u32,
    pub line: u32,
}

// The most looks at nodes that are taken for a draft.
const MOST_LOOKS: u64 = 5_000_000;

/// The forward part of a plan, seen by its toggles: nodes are held on lines and cleared again. A
/// node with a home is held there and stays. The others take the work line that has been
/// free for longest. No call fails: the first refusal is kept, and told by `finish`.
#[derive(Drop)]
pub struct Draft<'n> {
    pub nodes: &'n Nodes,
    /// The toggles, in order.
    pub toggles: Vec<Toggle>,
    /// The looks at nodes.
    pub work: Work,
    /// The most gates, and Toffoli gates, that it may have.
    most: Weight,
    free: FreeLines,
    /// Of each node the line on which it is held.
    lines: Table<u32>,
    weight: Weight,
}

impl<'n> Draft<'n> {
    /// The draft that holds nothing yet, of at most so many Toffoli gates.
    pub fn new(alloc: Global, nodes: &'n Nodes, limits: Limits, toffoli: u64) -> Draft<'n> {
        let mut work = Work::new(alloc, MOST_LOOKS);
        let ports = nodes.ports();
        let room = match limits.work_lines(ports) {
            Some(room) => room,
            None => {
                work.give_up();
                0
            }
        };
        let lines = Table::new(&mut work, nodes.count as usize, NOWHERE);
        Draft {
            nodes,
            toggles: Vec::new(alloc),
            work,
            most: Weight {
                gates: limits.gates,
                toffoli,
            },
            free: FreeLines::new(alloc, ports, ports.saturating_add(room)),
            lines,
            weight: nodes.copies,
        }
    }

    /// How many lines the plan has, without borrowed ones.
    pub fn lines(&self) -> u32 {
        self.free.behind()
    }

    /// What the plan comes to.
    ///
    /// # Errors
    ///
    /// Why it is none within its limits.
    pub fn size(&self) -> Result<Size, Stop> {
        let Weight { toffoli, gates } = self.weight;
        self.work.finish(Size::new(toffoli, self.lines(), gates))
    }

    /// Whether it has more Toffoli gates than it may have.
    pub fn is_beyond(&self) -> bool {
        self.weight.toffoli > self.most.toffoli
    }

    /// Whether no work line is free.
    pub fn is_full(&self) -> bool {
        self.free.is_empty()
    }

    /// Whether a node is held.
    pub fn is_held(&self, node: u32) -> bool {
        self.lines.get(node) != NOWHERE
    }

    /// Clears a node, where all its operands are held; whether they are.
    pub fn clear_ready(&mut self, node: u32) -> bool {
        let operands = self.nodes.operands(node);
        self.work.spend(operands.len() as u64);
        let are_held = self.are_held(operands);
        if are_held {
            self.clear(node);
        }
        are_held
    }

    fn are_held(&self, nodes: &[u32]) -> bool {
        for node in nodes {
            if !self.is_held(*node) {
                return false;
            }
        }
        true
    }

    /// Holds a node, where it is not held already.
    pub fn hold(&mut self, node: u32) {
        if self.is_held(node) {
            return;
        }
        let line = match self.nodes.home(node) {
            Some(output) => self.nodes.inputs.saturating_add(output),
            None => self.free.take(&mut self.work),
        };
        self.lines.set(node, line);
        self.toggle(node, line);
    }

    /// Clears a node, where it is held and has no home.
    pub fn clear(&mut self, node: u32) {
        let line = self.lines.get(node);
        if line == NOWHERE || self.nodes.home(node).is_some() {
            return;
        }
        self.free.give(&mut self.work, line);
        self.lines.set(node, NOWHERE);
        self.toggle(node, line);
    }

    // Toggles a node onto a line.
    fn toggle(&mut self, node: u32, line: u32) {
        self.work.spend(1);
        self.weight = self.weight.plus(self.nodes.weight(node));
        if self.weight.gates > self.most.gates || self.is_beyond() {
            self.work.give_up();
        }
        self.work.push(&mut self.toggles, Toggle { node, line });
    }
}
