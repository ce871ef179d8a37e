// Lines that nodes without products can do without.
use plan_tools::{Table, Work};
use span_graphs::{SpanGraph, Turn};
use span_sweeps::Event;

/// Marks the nodes without products that one factor alone has, and that took a line of their own
/// nonetheless.
pub fn lone_copies(work: &mut Work, graph: &SpanGraph, events: &[Event]) -> Table<bool> {
    let lone = graph.lone_nodes(work);
    let mut marks = Table::new(work, graph.nodes.len(), false);
    for event in events {
        if let Event::On {
            toggle,
            is_fresh: true,
            ..
        } = event
        {
            marks.set(toggle.node, lone.get(toggle.node));
        }
    }
    marks
}

/// The turns without those by which marked nodes go off: there is nothing of them.
pub fn turns_without(work: &mut Work, turns: &[Turn], marks: &Table<bool>) -> Vec<Turn> {
    let mut rest = Vec::new(work.alloc);
    for turn in turns {
        match turn {
            Turn::Off(place) if marks.get(*place) => {}
            _ => work.push(&mut rest, *turn),
        }
    }
    rest
}
