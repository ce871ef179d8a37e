// Sweeps over a schedule, from its end.
use crate::events::{End, Event, RowVector};
use crate::measures::Measures;
use crate::sweeper::Sweeper;
use plan_tools::{Stop, Table, Work};
use span_graphs::{SpanGraph, Turn};
use span_rows::Rows;

/// The most additions and rows of factors that a sweep notes. Each is a gate and more.
const MOST_NOTED: usize = 4_000_000;

/// What a sweep over a schedule found.
#[derive(Drop)]
pub struct Sweep {
    /// In the order of the schedule.
    pub events: Vec<Event>,
    /// How many rows there are in all.
    pub rows: usize,
    /// The rows at the beginning, whose vectors are sums of inputs; their heads fall.
    pub first: Vec<RowVector>,
    pub ends: Vec<End>,
    /// The rank of the rows before each turn.
    pub ranks: Vec<u32>,
    /// The symbols that were added.
    pub work: u64,
    pub measures: Measures,
}

/// Goes over a schedule from its end, and keeps a basis of what is wanted at each moment. `forced`
/// says of each node whether its rows are to have no other symbol. Each symbol that is added is a
/// unit of work.
///
/// # Errors
///
/// `GaveUp` where the work is spent, or the sweep would note too much; `Memory` where memory is
/// refused. No clause says so.
pub fn sweep_over(
    mut work: Work,
    graph: &SpanGraph,
    turns: &[Turn],
    forced: &Table<bool>,
) -> Result<Sweep, Stop> {
    let rows = first_rows(&mut work, graph, forced);
    let mut sweeper = Sweeper::new(graph, work, rows);
    let found = sweeper.sweep(turns);
    sweeper.work.finish(found)
}

// No rows, over the symbols of the graph.
fn first_rows(work: &mut Work, graph: &SpanGraph, forced: &Table<bool>) -> Rows {
    let mut linear = work.filled(false, graph.inputs as usize);
    for node in &graph.nodes {
        work.push(&mut linear, node.is_linear());
    }
    let mut alone = work.filled(false, graph.inputs as usize);
    work.append(&mut alone, forced.items());
    Rows::new(work, linear, alone)
}

impl Sweeper<'_> {
    // Goes back over all turns, from what is wanted in the end to the inputs.
    fn sweep(&mut self, turns: &[Turn]) -> Sweep {
        self.insert_outputs();
        let ends = self.ends();
        let ranks = self.go_back(turns);
        let mut first = self.take_rows(0, self.graph.inputs);
        first.reverse();
        if self.block.is_some() {
            self.work.give_up();
        }
        let mut events = self.work.take(&mut self.events);
        events.reverse();
        Sweep {
            measures: Measures::of(&events, &first, &ends),
            events,
            rows: self.rows.made(),
            first,
            ends,
            ranks,
            work: self.work.spent(),
        }
    }

    // The nodes that have homes are wanted in the end, and the other outputs.
    fn insert_outputs(&mut self) {
        for node in &self.graph.nodes {
            if node.home.is_some() {
                self.rows.insert(&mut self.work, &node.event);
            }
        }
        for output in &self.graph.outputs {
            if !output.has_home {
                self.rows.insert(&mut self.work, &output.vector);
            }
        }
    }

    // The rows of the outputs without homes.
    fn ends(&mut self) -> Vec<End> {
        let mut ends = Vec::new(self.work.alloc);
        let mut onto: u32 = 0;
        for output in &self.graph.outputs {
            if !output.has_home {
                let end = self.end(onto, &output.vector);
                self.work.push(&mut ends, end);
            }
            onto = onto.saturating_add(1);
        }
        ends
    }

    // Goes back over all turns; the rank before each, in their order.
    fn go_back(&mut self, turns: &[Turn]) -> Vec<u32> {
        let mut ranks = Vec::new(self.work.alloc);
        for turn in turns.iter().rev() {
            self.go_back_over(*turn);
            self.work.push(&mut ranks, self.rows.rank());
            if self.noted > MOST_NOTED {
                self.work.give_up();
            }
            if self.work.is_stopped() {
                break;
            }
        }
        ranks.reverse();
        ranks
    }

    // Goes back over a turn.
    fn go_back_over(&mut self, turn: Turn) {
        self.rows.clear_insertions();
        match turn {
            Turn::Open => self.back_over_open(),
            Turn::Close(range) => self.back_over_close(range),
            Turn::On(place) => self.back_over_on(place),
            Turn::Off(place) => self.back_over_off(place),
        }
    }
}
