// The order in which nodes are written. Nothing is promised of it: what writes them refuses a node
// of one that is not written yet.
use dependency_graph::Base;
use plan_tools::{Stop, Table, Work};
use std::alloc::Global;
use std::collections::BTreeSet;
use wide_sums::WideSum;

/// Definitions of nodes, of which so many from one on are outputs, and where each comes from.
#[derive(Clone, Copy)]
pub struct Defined<'a> {
    pub definitions: &'a [WideSum],
    pub keys: &'a [u32],
    pub first: u32,
    pub count: u32,
}

/// The nodes that outputs rest on, operands first, else in the order of their keys. Of the outputs
/// only those stand there that others rest on.
///
/// # Errors
///
/// `Memory` where memory is refused. No clause says so.
pub fn order_of(alloc: Global, defined: Defined) -> Result<Vec<u32>, Stop> {
    let mut work = Work::new(alloc, u64::MAX);
    let mut rest = Rest::new(&mut work, defined);
    rest.see_outputs(&mut work, defined);
    rest.count_all(&mut work, defined);
    let order = rest.written(&mut work, defined);
    work.finish(order)
}

// What is still to be written.
#[derive(Drop)]
struct Rest {
    /// Nodes all of whose operands are written, by their keys.
    ready: BTreeSet<(u32, u32)>,
    /// Of each node, who uses it, and how many operands are not written yet.
    users: Vec<Vec<u32>>,
    left: Table<u32>,
    /// Which nodes were seen, and those that are still to be counted.
    is_seen: Table<bool>,
    stack: Vec<u32>,
}

impl Rest {
    fn new(work: &mut Work, defined: Defined) -> Rest {
        let count = defined.definitions.len();
        Rest {
            ready: BTreeSet::new(work.alloc),
            users: work.lists(count),
            left: Table::new(work, count, 0),
            is_seen: Table::new(work, count, false),
            stack: Vec::new(work.alloc),
        }
    }

    fn see_outputs(&mut self, work: &mut Work, defined: Defined) {
        for output in 0..defined.count {
            let operands = operands_of(work, defined, defined.first.saturating_add(output));
            self.see(work, &operands);
        }
    }

    // Puts nodes on the stack that were not seen before.
    fn see(&mut self, work: &mut Work, nodes: &[u32]) {
        for node in nodes {
            if !self.is_seen.get(*node) {
                self.is_seen.set(*node, true);
                work.push(&mut self.stack, *node);
            }
        }
    }

    fn count_all(&mut self, work: &mut Work, defined: Defined) {
        for _ in 0..u32::MAX {
            let Some(node) = self.stack.pop() else {
                return;
            };
            let operands = operands_of(work, defined, node);
            self.see(work, &operands);
            self.count(work, node, &operands);
            self.note(work, defined, node);
        }
    }

    // Counts the operands of a node, and notes it as their user.
    fn count(&mut self, work: &mut Work, node: u32, operands: &[u32]) {
        for operand in operands {
            self.left.set(node, self.left.get(node).saturating_add(1));
            if let Some(users) = self.users.get_mut(*operand as usize) {
                work.push(users, node);
            }
        }
    }

    // A node all of whose operands are written is ready.
    fn note(&mut self, work: &mut Work, defined: Defined, node: u32) {
        if self.left.get(node) == 0 {
            let key = defined.keys.get(node as usize).copied().unwrap_or(node);
            work.note(self.ready.insert((key, node)));
        }
    }

    // The nodes, as they become ready.
    fn written(&mut self, work: &mut Work, defined: Defined) -> Vec<u32> {
        let mut order = Vec::new(work.alloc);
        for _ in 0..defined.definitions.len() {
            let Some((_, node)) = self.ready.pop_first() else {
                break;
            };
            work.push(&mut order, node);
            self.write(work, defined, node);
        }
        order
    }

    // A node was written: its users have one operand less to wait for.
    fn write(&mut self, work: &mut Work, defined: Defined, node: u32) {
        let mut users = Vec::new(work.alloc);
        if let Some(list) = self.users.get_mut(node as usize) {
            users = work.take(list);
        }
        for user in &users {
            self.left.set(*user, self.left.get(*user).saturating_sub(1));
            self.note(work, defined, *user);
        }
    }
}

// The nodes in a sum, each once.
fn operands_of(work: &mut Work, defined: Defined, node: u32) -> Vec<u32> {
    let mut operands = Vec::new(work.alloc);
    let Some(sum) = defined.definitions.get(node as usize) else {
        return operands;
    };
    push_nodes(work, sum.bits(), &mut operands);
    for product in sum.products() {
        push_nodes(work, product.first(), &mut operands);
        push_nodes(work, product.second(), &mut operands);
    }
    work.note(operands.sort());
    operands.dedup();
    operands
}

fn push_nodes(work: &mut Work, bits: &[Base], nodes: &mut Vec<u32>) {
    for base in bits {
        if let Base::Node(node) = base {
            work.push(nodes, *node);
        }
    }
}
