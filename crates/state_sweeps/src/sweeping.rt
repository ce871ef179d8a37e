// Sweeps over all nodes, from the end.
use crate::growth::{Cuts, Segment};
use crate::sweeper::{Sweeper, Watch};
use crate::trunk::{Stand, Trunk};
use plan_tools::{Row, Stop, Work, number};
use state_graphs::StateGraph;
use state_rows::{Layer, Place, Step};
use std::mem;

/// The most steps of a sweep. Each is a gate and more.
const MOST_STEPS: usize = 4_000_000;

/// How a sweep goes, and what it may take at most: it is given up where it takes more.
#[derive(Clone, Copy)]
pub struct Way {
    /// In segments that begin before this place, nodes go off beneath behind them.
    pub cleaned: u32,
    /// Whether all nodes are made beneath: the state has sums of inputs alone, to which the outputs
    /// are copied.
    pub is_beneath: bool,
    /// The units of work that it may take, and those that come for each node that lies behind.
    pub at_first: u64,
    pub per_node: u64,
    /// By more than how many symbols a vector is to be shorter than a row to take its head.
    pub margin: usize,
    /// The rows at a moment, each of which has a line.
    pub rows: u32,
    /// The Toffoli gates, of which each node that is left takes one.
    pub toffoli: u64,
}

/// What an output ends as: its place, and the row of the state on its line.
#[derive(Clone, Copy)]
pub struct End {
    pub output: u32,
    pub row: Row,
}

/// A row at the beginning, and its vector, a sum of inputs.
#[derive(Drop)]
pub struct First {
    pub row: Row,
    pub vector: Vec<u32>,
}

/// What a sweep found.
#[derive(Drop)]
pub struct Sweep {
    /// From the last one to the first.
    pub steps: Vec<Step>,
    /// How many rows there are in all.
    pub rows: u32,
    pub ends: Vec<End>,
    /// Their heads fall.
    pub firsts: Vec<First>,
    pub toffoli: u64,
    /// The gates of its plan, before any copy between lines is left out.
    pub gates: u64,
    /// Whether a node is made beneath.
    pub has_beneath: bool,
    /// The place behind the last node that went off beneath; 0 where none did.
    pub cleaned: u32,
}

/// Goes over all nodes from the end, a segment at a time. Each symbol that is added is a unit of
/// work, and each node that is looked through for what is needed. None where it takes more than it
/// may. It begins where the trunk of an earlier sweep of the same graph ends, or becomes the trunk
/// of later ones; where there is none then, other numbers of cleaned nodes make no difference.
///
/// # Errors
///
/// `GaveUp` where the work is spent, or there are too many steps; `Memory` where memory is refused.
/// No clause says so.
pub fn sweep_over(
    work: &mut Work,
    graph: &StateGraph,
    way: Way,
    trunk: &mut Option<Trunk>,
) -> Result<Option<Sweep>, Stop> {
    let mut sweeper = Sweeper::new(graph, work.part(u64::MAX), way.margin);
    let found = sweeper.sweep(way, trunk);
    work.join(&sweeper.work);
    work.finish(found)
}

impl Sweeper<'_> {
    fn sweep(&mut self, way: Way, trunk: &mut Option<Trunk>) -> Option<Sweep> {
        let mut stand = match trunk {
            Some(trunk) if trunk.is_of(way) => self.resume(trunk),
            _ => self.begin(way),
        };
        if trunk.is_none() && !way.is_beneath {
            self.watch = Watch::On;
        }
        if !self.go_back(way, &mut stand, trunk) {
            return None;
        }
        self.insert_inputs();
        Some(Sweep {
            firsts: self.firsts(),
            gates: self.gates(),
            steps: self.work.take(&mut self.rows.steps),
            rows: self.rows.count(),
            ends: stand.ends,
            toffoli: self.counts.toffoli,
            has_beneath: self.counts.has_beneath,
            cleaned: self.counts.cleaned,
        })
    }

    // It stands at the end.
    fn begin(&mut self, way: Way) -> Stand {
        let ends = self.begin_outputs();
        self.copy_outputs(&ends);
        if way.is_beneath {
            self.want_outputs_beneath();
        }
        let end = self.nodes();
        Stand {
            ends,
            segments: self.graph.starts.len(),
            end,
            score: self.score(end),
            spent: 0,
        }
    }

    // A row of the state for each output that has symbols; those that are sums of rows stay out.
    fn begin_outputs(&mut self) -> Vec<End> {
        let graph = self.graph;
        let mut ends = Vec::new(self.work.alloc);
        for (output, sum) in graph.outputs.iter().enumerate() {
            if !sum.vector.is_empty() {
                let row = self.rows.fresh(&mut self.work, Layer::State);
                let output = number(output);
                self.work.push(&mut ends, End { output, row });
                if !self.rows.spans(&mut self.work, &sum.vector, Layer::State) {
                    let vector = self.work.copy(&sum.vector);
                    self.rows.place(&mut self.work, row, vector, Place::Plain);
                }
            }
        }
        ends
    }

    // The outputs that are sums of rows begin as copies.
    fn copy_outputs(&mut self, ends: &[End]) {
        let graph = self.graph;
        for end in ends {
            if let Some(sum) = graph.outputs.get(end.output as usize)
                && self.rows.vector(end.row).is_empty()
            {
                let rows = self.rows.rows_of(&mut self.work, &sum.vector, Layer::State);
                self.rows.add_all(&mut self.work, &rows, end.row);
                self.rows.push(&mut self.work, Step::Begin(end.row));
            }
        }
    }

    // Wants all that outputs have beside inputs beneath.
    fn want_outputs_beneath(&mut self) {
        let graph = self.graph;
        for output in &graph.outputs {
            let nodes = self.without_inputs(&output.vector);
            self.want_beneath(&nodes);
        }
    }

    fn without_inputs(&mut self, vector: &[u32]) -> Vec<u32> {
        let mut nodes = Vec::new(self.work.alloc);
        for symbol in vector {
            if self.graph.place(*symbol).is_some() {
                self.work.push(&mut nodes, *symbol);
            }
        }
        nodes
    }

    // Back over all segments; whether that takes no more than it may. At the first segment that
    // needs nodes beneath it becomes the trunk, if that is watched.
    fn go_back(&mut self, way: Way, stand: &mut Stand, trunk: &mut Option<Trunk>) -> bool {
        let graph = self.graph;
        for _ in 0..graph.starts.len().saturating_add(1) {
            if stand.segments == 0 {
                break;
            }
            let cuts = stand.cuts(&graph.starts, way);
            if let Some(segment) = self.back_over_within(cuts, way, stand.spent) {
                stand.pass(segment, cuts.start(segment.count));
            } else if self.has_met() {
                self.watch = Watch::Off;
                *trunk = Some(self.trunk(stand, way.margin));
            } else {
                break;
            }
            self.stop_at(MOST_STEPS);
            if self.is_beyond(way, stand.end) {
                return false;
            }
        }
        if stand.end > 0 {
            self.work.give_up();
        }
        true
    }

    // Back over a segment, of as much work as the nodes behind it allow, of which so much was spent
    // before.
    fn back_over_within(&mut self, cuts: Cuts<'_>, way: Way, before: u64) -> Option<Segment> {
        let passed = self.nodes().saturating_sub(cuts.end) as u64;
        let most = passed
            .saturating_mul(way.per_node)
            .saturating_add(way.at_first);
        let spent = self.work.spent().saturating_add(before);
        let part = self.work.part(most.saturating_sub(spent));
        let whole = mem::replace(&mut self.work, part);
        let segment = self.back_over_segment(cuts);
        let part = mem::replace(&mut self.work, whole);
        self.work.join(&part);
        segment
    }

    fn stop_at(&mut self, most: usize) {
        if self.rows.steps.len() > most {
            self.work.give_up();
        }
    }

    // Whether it takes more than it may, with so many nodes that are left. At the end all outputs
    // have lines, and all rows that keep theirs.
    fn is_beyond(&self, way: Way, left: u32) -> bool {
        let toffoli = self.counts.toffoli.saturating_add(left as u64);
        let outputs = number(self.graph.outputs.len());
        let at_the_end = self.rows.lasts().saturating_add(outputs);
        toffoli > way.toffoli || self.rows.rank().max(at_the_end) > way.rows
    }

    // The gates of all steps, those for rows beneath twice.
    fn gates(&self) -> u64 {
        let mut gates: u64 = 0;
        for step in &self.rows.steps {
            gates = gates.saturating_add(self.gates_of(step));
        }
        gates
    }

    fn gates_of(&self, step: &Step) -> u64 {
        let (onto, gates) = match step {
            Step::Add { from, to } => (*to, u64::from(!self.rows.is_definition(*from))),
            Step::Toggle {
                onto,
                first,
                second,
                ..
            } => {
                let rows = self.lines_in(first).saturating_add(self.lines_in(second));
                (*onto, rows.saturating_mul(2).saturating_sub(3))
            }
            _ => return 0,
        };
        match self.rows.layer(onto) {
            Layer::State => gates,
            Layer::Beneath => gates.saturating_mul(2),
        }
    }

    // How many of some rows have lines.
    fn lines_in(&self, rows: &[Row]) -> u64 {
        let mut count: u64 = 0;
        for row in rows {
            count = count.saturating_add(u64::from(!self.rows.is_definition(*row)));
        }
        count
    }

    // The rows of the state are sums of inputs, which are inserted beneath: they begin as copies.
    fn insert_inputs(&mut self) {
        for symbol in 0..self.graph.inputs {
            if let Some(row) = self.rows.in_layer(symbol, Layer::State) {
                let vector = self.work.copy(self.rows.vector(row));
                let _ = self.rows.insert(&mut self.work, &vector);
            }
        }
    }

    // The rows at the beginning.
    fn firsts(&mut self) -> Vec<First> {
        let mut firsts = Vec::new(self.work.alloc);
        for symbol in (0..self.graph.inputs).rev() {
            if let Some(row) = self.rows.with_head(symbol) {
                let vector = self.work.copy(self.rows.vector(row));
                self.work.push(&mut firsts, First { row, vector });
            }
        }
        firsts
    }
}
