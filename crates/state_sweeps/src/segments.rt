// Segments of nodes, each of which goes off and is made again.
use crate::needs::Range;
use crate::sweeper::{Sweeper, Watch};
use plan_tools::number;
use state_graphs::StateNode;
use state_rows::Layer;

impl Sweeper<'_> {
    /// Back over the nodes of a range: those within it go off behind it where that is possible,
    /// those for rows beneath only where it is `clean`; what is missing then is asked for. False
    /// where it is given up, since too much was asked for.
    pub fn back_over(&mut self, range: Range, is_clean: bool) -> bool {
        self.requests.clear();
        self.define_sums(range);
        let turns = range.to.saturating_sub(range.from).saturating_mul(2);
        for _ in 0..turns.saturating_add(1) {
            let rest = self.close(range, is_clean);
            if self.is_over() || self.work.is_stopped() {
                return false;
            }
            if rest.is_empty() {
                return self.make(range);
            }
            self.request_for(range, &rest);
        }
        self.work.give_up();
        false
    }

    // Sums with symbols of their own are defined.
    fn define_sums(&mut self, range: Range) {
        let graph = self.graph;
        for place in range.from..range.to {
            if let Some(node) = graph.node(place)
                && node.is_sum()
            {
                let event = self.work.copy(&node.event);
                self.rows.define(&mut self.work, place, event);
            }
        }
    }

    // The inner nodes of both layers go off, rising, in turns; those of the state that do not.
    fn close(&mut self, range: Range, is_clean: bool) -> Vec<u32> {
        let beneath = self.needed(range, Layer::Beneath, None);
        let state = self.needed(range, Layer::State, Some(&beneath));
        if is_clean || self.watch == Watch::On {
            let inner = self.inner_of(range, &beneath);
            if self.watch == Watch::On && !inner.is_empty() {
                self.watch = Watch::Met;
            } else {
                self.close_beneath(inner);
            }
        }
        let inner = self.inner_of(range, &state);
        self.go_off(inner, Layer::State)
    }

    // Nodes for rows beneath go off; where none does, what is missing for the first is kept.
    fn close_beneath(&mut self, nodes: Vec<u32>) {
        let graph = self.graph;
        let mut rest = nodes;
        for _ in 0..rest.len().saturating_add(1) {
            rest = self.go_off(rest, Layer::Beneath);
            let Some(node) = rest.first().and_then(|place| graph.node(*place)) else {
                return;
            };
            self.want_beneath(&node.first);
            self.want_beneath(&node.second);
            if self.is_over() || self.work.is_stopped() {
                return;
            }
        }
        self.work.give_up();
    }

    // Nodes go off in turns until none does; those that are left.
    fn go_off(&mut self, nodes: Vec<u32>, layer: Layer) -> Vec<u32> {
        let mut rest = nodes;
        for _ in 0..rest.len() {
            let before = rest.len();
            rest = self.go_off_once(&rest, layer);
            if rest.len() == before {
                break;
            }
        }
        rest
    }

    fn go_off_once(&mut self, nodes: &[u32], layer: Layer) -> Vec<u32> {
        let mut rest = Vec::new(self.work.alloc);
        for place in nodes {
            if !self.off(*place, layer) {
                self.work.push(&mut rest, *place);
            }
        }
        rest
    }

    // Asks for the factors of the first of some nodes that lack only what lies before the range, or
    // of the first one.
    fn request_for(&mut self, range: Range, nodes: &[u32]) {
        let graph = self.graph;
        let mut pick = nodes.first().copied();
        for place in nodes {
            if let Some(node) = graph.node(*place)
                && self.lacks_before(node, range)
            {
                pick = Some(*place);
                break;
            }
        }
        if let Some(node) = pick.and_then(|place| graph.node(place)) {
            self.request(&node.first);
            self.request(&node.second);
        }
    }

    fn lacks_before(&mut self, node: &StateNode, range: Range) -> bool {
        self.is_before(&node.first, range) && self.is_before(&node.second, range)
    }

    // Whether what the state does not know of a vector lies before a range.
    fn is_before(&mut self, vector: &[u32], range: Range) -> bool {
        let rest = self.rows.rest(&mut self.work, vector, Layer::State);
        match rest.first() {
            Some(symbol) => *symbol < self.graph.symbol(range.from),
            None => true,
        }
    }

    // Back over the making of all nodes. Of the requests only those stay noted that are made on the
    // way, and that the nodes of the range are in.
    fn make(&mut self, range: Range) -> bool {
        self.requests.clear();
        for place in (range.from..range.to).rev() {
            self.on(place);
            if self.is_over() || self.work.is_stopped() {
                return false;
            }
        }
        self.drop_requests_below(self.graph.symbol(range.from));
        true
    }

    // Forgets requests for vectors of symbols below one.
    fn drop_requests_below(&mut self, first: u32) {
        let requests = self.work.take(&mut self.requests);
        for request in requests {
            if request.first().is_some_and(|symbol| *symbol >= first) {
                self.work.push(&mut self.requests, request);
            }
        }
    }

    /// How many nodes there are.
    pub fn nodes(&self) -> u32 {
        number(self.graph.nodes.len())
    }
}
