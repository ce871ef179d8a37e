// The rule by which a schedule is made.
use crate::events::Event;
use plan_tools::{Table, Work};
use span_graphs::SpanGraph;

/// Where segments begin, and what earlier sweeps told.
#[derive(Drop)]
pub struct Rule {
    pub starts: Vec<u32>,
    /// Of each node, whether it took a line of its own, having no products.
    pub copies: Table<bool>,
    /// Of each node, whether its rows are to have no other symbol.
    pub forced: Table<bool>,
    /// The ranks of the last sweep.
    pub ranks: Vec<u32>,
    /// The work lines without cleaning.
    pub work: u32,
    /// The work lines with all segments cleaned.
    pub least: u32,
}

impl Rule {
    /// All nodes in one segment, of which nothing is known yet.
    pub fn whole(work: &mut Work, nodes: usize) -> Rule {
        Rule {
            starts: work.copy(&[0]),
            copies: Table::new(work, nodes, false),
            forced: Table::new(work, nodes, false),
            ranks: Vec::new(work.alloc),
            work: 0,
            least: 0,
        }
    }

    /// A rule for each of these segments, with what is known of nodes.
    pub fn with_each(&self, work: &mut Work, segments: &[Vec<u32>]) -> Vec<Rule> {
        let mut rules = Vec::new(work.alloc);
        for starts in segments {
            let rule = Rule {
                starts: work.copy(starts),
                copies: self.copies.copy(work),
                forced: self.forced.copy(work),
                ranks: Vec::new(work.alloc),
                work: 0,
                least: 0,
            };
            work.push(&mut rules, rule);
        }
        rules
    }

    /// Learns from a sweep which nodes without products took a line of their own, or more than
    /// `most` additions; whether another sweep would go otherwise.
    pub fn learn(&mut self, graph: &SpanGraph, events: &[Event], most: usize) -> bool {
        let mut is_new = false;
        for event in events {
            is_new |= self.learn_event(graph, event, most);
        }
        is_new
    }

    fn learn_event(&mut self, graph: &SpanGraph, event: &Event, most: usize) -> bool {
        let Event::On {
            toggle,
            is_fresh,
            ..
        } = event
        else {
            return false;
        };
        let Some(node) = graph.node(toggle.node) else {
            return false;
        };
        let has_many = toggle.before.len() > most;
        if !node.is_linear() || self.copies.get(toggle.node) || !(*is_fresh || has_many) {
            return false;
        }
        self.copies.set(toggle.node, true);
        if *is_fresh {
            return self.starts.len() > 1;
        }
        self.forced.set(toggle.node, true);
        true
    }
}
