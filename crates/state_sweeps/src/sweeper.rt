// A sweep on its way, and what its turns share.
use crate::pivots::{ByWeight, Pivots};
use plan_tools::{Row, Work};
use state_graphs::{Below, StateGraph, StateNode};
use state_rows::{Layer, Mark, Place, StateRows, Step};

/// Up to how many rows the bits of a node are added to its line where it goes off.
const MOST_BITS: usize = 16;

/// The units of work for a look at a node.
const PER_NODE: u64 = 8;

/// What a sweep counts.
#[derive(Clone, Copy)]
pub struct Counts {
    /// What the state asked for, but sums of inputs.
    pub asked: u32,
    /// The rows beneath that rows beneath asked for, but sums of inputs.
    pub kept: u32,
    /// The Toffoli gates of its plan.
    pub toffoli: u64,
    /// Whether a node is made beneath.
    pub has_beneath: bool,
    /// The place behind the last node that went off beneath.
    pub cleaned: u32,
}

/// What may be asked for and kept at most before a segment is given up.
#[derive(Clone, Copy)]
pub struct Most {
    pub asked: u32,
    pub kept: u32,
}

/// Whether a sweep is to stop at the first segment that needs nodes beneath, and whether it did.
#[derive(Clone, Copy, PartialEq, Eq)]
pub enum Watch {
    Off,
    On,
    Met,
}

/// Where a sweep stood.
#[derive(Clone, Copy)]
pub struct Saved {
    mark: Mark,
    counts: Counts,
}

impl Saved {
    /// What was counted there.
    pub fn counts(self) -> Counts {
        self.counts
    }
}

/// A sweep on its way from the end.
#[derive(Drop)]
pub struct Sweeper<'g> {
    pub graph: &'g StateGraph,
    pub below: Below,
    pub work: Work,
    pub by_weight: ByWeight,
    pub pivots: Pivots,
    pub rows: StateRows,
    pub counts: Counts,
    pub most: Most,
    pub watch: Watch,
    /// What was asked for since a segment began.
    pub requests: Vec<Vec<u32>>,
}

impl Sweeper<'_> {
    /// At the end, without rows, which have this margin.
    pub fn new(graph: &StateGraph, mut work: Work, margin: usize) -> Sweeper<'_> {
        Sweeper {
            graph,
            below: Below::of(&mut work, graph),
            by_weight: ByWeight::of(&mut work, graph),
            pivots: Pivots::none(&mut work, graph.symbols()),
            rows: StateRows::new(&mut work, graph.symbols(), margin),
            counts: Counts {
                asked: 0,
                kept: 0,
                toffoli: 0,
                has_beneath: false,
                cleaned: 0,
            },
            most: Most {
                asked: u32::MAX,
                kept: u32::MAX,
            },
            watch: Watch::Off,
            requests: Vec::new(work.alloc),
            work,
        }
    }

    /// Whether more was asked for or kept than may be, or a node beneath was met.
    pub fn is_over(&self) -> bool {
        let is_too_much = self.counts.asked > self.most.asked || self.counts.kept > self.most.kept;
        is_too_much || self.has_met()
    }

    /// Whether a node beneath was met while that was watched.
    pub fn has_met(&self) -> bool {
        self.watch == Watch::Met
    }

    /// From here on it can be undone.
    pub fn save(&mut self) -> Saved {
        Saved {
            mark: self.rows.mark(&self.work),
            counts: self.counts,
        }
    }

    /// All since `save` is undone.
    pub fn undo(&mut self, saved: Saved) {
        self.rows.undo(&mut self.work, saved.mark);
        self.counts = saved.counts;
    }

    /// The state is to know a vector: what it does not know of that is asked for beneath.
    pub fn request(&mut self, vector: &[u32]) {
        if self.rows.spans(&mut self.work, vector, Layer::State) {
            return;
        }
        self.renew_pivots();
        let unknown = self.by_weight.unknown(&mut self.work, &self.pivots, vector);
        if self.rows.insert(&mut self.work, &unknown) && self.graph.has_node(&unknown) {
            self.counts.asked = self.counts.asked.saturating_add(1);
            self.work.push(&mut self.requests, unknown);
        }
    }

    /// Brings the pivots of the state up to date.
    pub fn renew_pivots(&mut self) {
        self.pivots
            .renew(&mut self.work, &self.by_weight, &mut self.rows);
    }

    /// The rows beneath are to know a vector.
    pub fn want_beneath(&mut self, vector: &[u32]) {
        if self.rows.insert(&mut self.work, vector) && self.graph.has_node(vector) {
            self.counts.kept = self.counts.kept.saturating_add(1);
        }
    }

    /// A layer is to know a vector.
    pub fn want(&mut self, vector: &[u32], layer: Layer) {
        match layer {
            Layer::Beneath => self.want_beneath(vector),
            Layer::State => self.request(vector),
        }
    }

    /// Whether a layer knows the factors of a node.
    pub fn knows_factors(&mut self, node: &StateNode, layer: Layer) -> bool {
        self.rows.spans(&mut self.work, &node.first, layer)
            && self.rows.spans(&mut self.work, &node.second, layer)
    }

    // Appends the toggle of a node onto the line of a row.
    fn push_toggle(&mut self, place: u32, node: &StateNode, onto: Row, layer: Layer) {
        let step = Step::Toggle {
            node: place,
            onto,
            first: self.rows.rows_of(&mut self.work, &node.first, layer),
            second: self.rows.rows_of(&mut self.work, &node.second, layer),
        };
        self.rows.push(&mut self.work, step);
        if node.is_sum() {
            return;
        }
        let times = match layer {
            Layer::State => 1,
            Layer::Beneath => 2,
        };
        self.counts.toffoli = self.counts.toffoli.saturating_add(times);
        self.counts.has_beneath |= layer == Layer::Beneath;
    }

    /// Back over the end of a node in a layer: it goes off a line of its own, if all is there for
    /// it. Whether the layer knows what its product adds then.
    pub fn off(&mut self, place: u32, layer: Layer) -> bool {
        let graph = self.graph;
        let Some(node) = graph.node(place) else {
            return true;
        };
        self.work.spend(PER_NODE);
        if self.rows.spans(&mut self.work, &node.event, layer) {
            return true;
        }
        if !self.knows_factors(node, layer) {
            return false;
        }
        let row = self.rows.fresh(&mut self.work, layer);
        self.rows.push(&mut self.work, Step::End { row, layer });
        self.push_toggle(place, node, row, layer);
        if layer == Layer::Beneath {
            self.counts.cleaned = self.counts.cleaned.max(place.saturating_add(1));
        }
        self.place_ended(node, row, layer);
        true
    }

    // Places what the line of a node that goes off held: the node itself, if its bits are few rows.
    fn place_ended(&mut self, node: &StateNode, row: Row, layer: Layer) {
        let bits = self.rows.reduce(&mut self.work, &node.bits, layer);
        let mut vector = self.work.copy(&node.event);
        if bits.left.is_empty() && bits.rows.len() <= MOST_BITS {
            self.rows.add_all(&mut self.work, &bits.rows, row);
            vector = self.work.sum_of(&vector, &node.bits);
        }
        self.rows.place(&mut self.work, row, vector, Place::First);
    }

    /// Back over the making of a node, if it is wanted.
    pub fn on(&mut self, place: u32) {
        let graph = self.graph;
        let (Some(node), Some(row)) = (graph.node(place), self.row_of(place)) else {
            return;
        };
        let layer = self.rows.layer(row);
        let vector = self.rows.take(&mut self.work, row);
        if self.rows.is_definition(row) {
            return;
        }
        self.want(&node.first, layer);
        self.want(&node.second, layer);
        self.push_toggle(place, node, row, layer);
        let held = self.work.sum_of(&vector, &node.event);
        let reduced = self.rows.reduce(&mut self.work, &held, layer);
        if reduced.left.is_empty() {
            self.rows.add_all(&mut self.work, &reduced.rows, row);
            self.rows.push(&mut self.work, Step::Begin(row));
        } else {
            self.rows.place(&mut self.work, row, held, Place::Plain);
        }
    }

    // The row whose head is the symbol of a node.
    fn row_of(&self, place: u32) -> Option<Row> {
        self.rows.with_head(self.graph.symbol(place))
    }
}
