// Which nodes of a segment are needed, and what is needed beneath in all.
use crate::sweeper::Sweeper;
use plan_tools::Table;
use state_graphs::StateNode;
use state_rows::Layer;

/// A range of places: from one to below another.
#[derive(Clone, Copy)]
pub struct Range {
    pub from: u32,
    pub to: u32,
}

/// The nodes of a range that are needed for the rows of a layer, by their places in it.
#[derive(Drop)]
pub struct Needed {
    /// The symbol of the first node of the range.
    first: u32,
    reached: Table<bool>,
    /// Those in factors of a needed node, or in the event of such a one.
    inner: Table<bool>,
}

/// How much is needed beneath.
#[derive(Clone, Copy)]
pub struct Score {
    /// The pivots of the state among the nodes that are needed.
    pub pivots: u32,
    pub nodes: u32,
}

impl Needed {
    // Notes symbols that are reached.
    fn reach(&mut self, vector: &[u32], is_inner: bool) {
        for symbol in vector {
            if let Some(at) = symbol.checked_sub(self.first) {
                self.reached.set(at, true);
                if is_inner {
                    self.inner.set(at, true);
                }
            }
        }
    }

    // Notes what a node is made of, where it is needed.
    fn pass(&mut self, node: &StateNode, at: u32) {
        let is_inner = self.inner.get(at);
        if is_inner || self.reached.get(at) {
            self.reach(&node.first, true);
            self.reach(&node.second, true);
            let (reached, inner) = (self.reached.get(at), self.inner.get(at));
            self.reach(&node.event, is_inner);
            self.reached.set(at, reached);
            self.inner.set(at, inner);
        }
    }
}

impl Sweeper<'_> {
    /// The nodes of a range that are needed for a layer; those of `others` count for that alone.
    pub fn needed(&mut self, range: Range, layer: Layer, others: Option<&Needed>) -> Needed {
        let count = range.to.saturating_sub(range.from) as usize;
        let mut needed = Needed {
            first: self.graph.symbol(range.from),
            reached: Table::new(&mut self.work, count, false),
            inner: Table::new(&mut self.work, count, false),
        };
        self.work.spend(count as u64);
        self.reach_rows(range, layer, &mut needed);
        for place in (range.from..range.to).rev() {
            let at = place.saturating_sub(range.from);
            let is_other = match others {
                Some(others) => others.reached.get(at),
                None => false,
            };
            if let Some(node) = self.graph.node(place)
                && !is_other
            {
                needed.pass(node, at);
            }
        }
        needed
    }

    fn reach_rows(&self, range: Range, layer: Layer, needed: &mut Needed) {
        for place in range.from..range.to {
            if let Some(row) = self.rows.in_layer(self.graph.symbol(place), layer)
                && !self.rows.is_definition(row)
            {
                needed.reach(self.rows.vector(row), false);
            }
        }
    }

    /// The inner nodes among those that are needed, rising.
    pub fn inner_of(&mut self, range: Range, needed: &Needed) -> Vec<u32> {
        let mut places = Vec::new(self.work.alloc);
        for place in range.from..range.to {
            if needed.inner.get(place.saturating_sub(range.from)) {
                self.work.push(&mut places, place);
            }
        }
        places
    }

    /// How much is needed beneath, where all nodes from a place on are behind.
    pub fn score(&mut self, behind: u32) -> Score {
        self.renew_pivots();
        self.work.spend(behind as u64);
        let mut score = Score {
            pivots: 0,
            nodes: 0,
        };
        let mut wanted = Table::new(&mut self.work, behind as usize, false);
        let graph = self.graph;
        for place in (0..behind).rev() {
            let symbol = graph.symbol(place);
            self.mark_row(symbol, &mut wanted);
            if wanted.get(place) {
                mark(self.below.list(place as usize), &mut wanted);
                let is_pivot = self.by_weight.is_pivot(&self.pivots, symbol);
                if self.has_product(place) {
                    score.nodes = score.nodes.saturating_add(1);
                    score.pivots = score.pivots.saturating_add(u32::from(is_pivot));
                }
            }
        }
        score
    }

    fn has_product(&self, place: u32) -> bool {
        match self.graph.node(place) {
            Some(node) => !node.is_sum(),
            None => false,
        }
    }

    // Notes the nodes of the row beneath that has this head, which all come before it.
    fn mark_row(&self, symbol: u32, wanted: &mut Table<bool>) {
        if let Some(row) = self.rows.in_layer(symbol, Layer::Beneath) {
            self.mark_places(self.rows.vector(row), wanted);
        }
    }

    fn mark_places(&self, vector: &[u32], wanted: &mut Table<bool>) {
        for symbol in vector {
            if let Some(place) = self.graph.place(*symbol) {
                wanted.set(place, true);
            }
        }
    }
}

fn mark(places: &[u32], wanted: &mut Table<bool>) {
    for place in places {
        wanted.set(*place, true);
    }
}
