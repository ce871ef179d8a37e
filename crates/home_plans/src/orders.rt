// In which order nodes are held and cleared, one after another.
use crate::draft::Draft;
use crate::nodes::Nodes;
use plan_tools::Limits;
use std::alloc::Global;

/// In which order nodes are held and cleared, one after another.
#[derive(Clone, Copy)]
pub enum Order {
    /// Each node in turn; behind it those whose last use it is, the later one first, where their
    /// operands are held.
    Ready,
    /// Segments of so many nodes; behind each but the last, those of its nodes whose last use is in
    /// it are cleared, the later one first.
    Segments { length: u32 },
    /// Each node in turn; where no line is free, up to `most` nodes that are not needed any more
    /// are cleared before, the latest first, where their operands are held.
    Lazy { most: u32 },
    /// By halves, down to `depth` halvings.
    Pebbled { depth: u32 },
}

impl Order {
    /// The draft in which nodes are held and cleared in this order, of at most so many Toffoli
    /// gates.
    pub fn draft<'n>(
        self,
        alloc: Global,
        nodes: &'n Nodes,
        limits: Limits,
        toffoli: u64,
    ) -> Draft<'n> {
        let mut draft = Draft::new(alloc, nodes, limits, toffoli);
        match self {
            Order::Ready => draft.hold_ready(),
            Order::Segments { length } => draft.hold_segments(length),
            Order::Lazy { most } => draft.hold_lazily(most),
            Order::Pebbled { depth } => draft.pebble(depth),
        }
        draft
    }
}

impl Draft<'_> {
    fn hold_ready(&mut self) {
        for node in 0..self.nodes.count {
            if self.work.is_stopped() {
                return;
            }
            self.hold(node);
            self.clear_used(node);
        }
    }

    // Clears the nodes whose last use this one is, the later one first, where their operands are
    // held.
    fn clear_used(&mut self, user: u32) {
        let nodes = self.nodes;
        for operand in nodes.operands(user).iter().rev() {
            if nodes.last_use(*operand) == user {
                let _is_ready = self.clear_ready(*operand);
            }
        }
    }

    fn hold_segments(&mut self, length: u32) {
        let mut start = 0;
        for node in 0..self.nodes.count {
            if self.work.is_stopped() {
                return;
            }
            self.hold(node);
            let end = node.saturating_add(1);
            if end.saturating_sub(start) >= length && end < self.nodes.count {
                self.clear_segment(start, end);
                start = end;
            }
        }
    }

    // Clears the nodes of a segment that are not used behind it.
    fn clear_segment(&mut self, start: u32, end: u32) {
        for node in (start..end).rev() {
            if self.nodes.last_use(node) < end {
                self.clear(node);
            }
        }
    }

    fn hold_lazily(&mut self, most: u32) {
        let mut held = Vec::new(self.work.alloc);
        for node in 0..self.nodes.count {
            if self.work.is_stopped() {
                return;
            }
            if self.nodes.home(node).is_none() {
                if self.is_full() {
                    self.clear_unneeded(&held, node, most);
                    held = self.still_held(&held);
                }
                self.work.push(&mut held, node);
            }
            self.hold(node);
        }
    }

    // Clears up to `most` of some nodes that are not needed from a node on.
    fn clear_unneeded(&mut self, held: &[u32], from: u32, most: u32) {
        let mut cleared: u32 = 0;
        for node in held.iter().rev() {
            if cleared >= most {
                return;
            }
            self.work.spend(1);
            if self.nodes.last_use(*node) < from && self.clear_ready(*node) {
                cleared = cleared.saturating_add(1);
            }
        }
    }

    fn still_held(&mut self, nodes: &[u32]) -> Vec<u32> {
        let mut held = Vec::new(self.work.alloc);
        for node in nodes {
            if self.is_held(*node) {
                self.work.push(&mut held, *node);
            }
        }
        held
    }
}
