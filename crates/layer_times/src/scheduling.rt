// A list schedule of nodes within a limit of lines.
use crate::cleaning::Clearing;
use crate::needs::Needs;
use crate::progress::Progress;
use crate::room::Room;
use crate::times::Times;
use layer_graphs::LayerGraph;
use plan_tools::{Table, Work, number};
use std::mem;

// The time of what is not done.
const NEVER: u32 = u32::MAX;

// How many work lines stay free for the factors of nodes that are cleared.
const RESERVE: u32 = 1;

// How many nodes of a layer are refused a line before the others are not asked for.
const MOST_REFUSED: u32 = 16;

/// What is done at a boundary, and then in the layer behind it.
#[derive(Drop)]
pub struct Layer {
    /// The nodes that are there from the boundary on: those without a product, which are made now,
    /// outputs among them, and those that were made in the layer before.
    pub arrivals: Vec<u32>,
    /// The nodes without a product that are cleared.
    pub departures: Vec<u32>,
    /// The nodes that are made in the layer.
    pub made: Vec<u32>,
    /// Those that are cleared in it.
    pub cleared: Vec<u32>,
}

impl Layer {
    fn empty(work: &Work) -> Layer {
        Layer {
            arrivals: Vec::new(work.alloc),
            departures: Vec::new(work.alloc),
            made: Vec::new(work.alloc),
            cleared: Vec::new(work.alloc),
        }
    }
}

/// What a plan comes to. The better of two is the one that comes to less, at the first of these
/// numbers where they differ.
#[derive(Clone, Copy, PartialEq, Eq, PartialOrd, Ord)]
pub struct Demand {
    /// The layers that have Toffoli gates.
    pub layers: u32,
    pub toffoli: u64,
    /// The work lines.
    pub lines: u32,
}

/// When what is done, and what that comes to.
#[derive(Drop)]
pub struct Timetable {
    /// The layers, which count from 1.
    pub layers: Vec<Layer>,
    /// Of each node the layer in which it is made, or the boundary where it has no product.
    pub on: Table<u32>,
    /// Of each symbol the first boundary at which it is there, with all its bits.
    pub there: Table<u32>,
    pub demand: Demand,
}

/// Within what a schedule stays.
#[derive(Clone, Copy)]
pub struct Limit<'l> {
    /// Of each symbol its part.
    pub parts: &'l Table<u32>,
    /// The most work lines.
    pub lines: u32,
    /// The most layers.
    pub layers: u32,
    /// How many parts, from the first one on that is not done, may have nodes made, where these
    /// leave lines to the first one; any parts, in any order, where it is none.
    pub window: Option<u32>,
}

// Layers in the making.
#[derive(Drop)]
struct Schedule<'s> {
    graph: &'s LayerGraph,
    limit: Limit<'s>,
    room: Room,
    needs: Needs<'s>,
    progress: Progress<'s>,
    /// The boundary, and the layer behind it.
    now: u32,
    /// The nodes whose latest times are below this one are due.
    front: u32,
    /// By their latest times the nodes that are not due.
    dues: Vec<Vec<u32>>,
    /// What is due and not done: nodes that come at a boundary, those without a product or products
    /// that lack bits; and products.
    arriving: Vec<u32>,
    making: Vec<u32>,
    /// Of each output the last layer in which a product went onto its line.
    onto: Table<u32>,
    /// Whether anything was done in this round.
    has_moved: bool,
    layer: Layer,
    table: Timetable,
}

/// The times at which nodes are made and cleared within a limit, each node as late as its latest
/// time, or later where it waits for a line; none where nothing goes on, or that takes too many
/// layers.
pub fn schedule_within(
    work: &mut Work,
    graph: &LayerGraph,
    latest: &Times,
    clearing: &Clearing,
    limit: Limit<'_>,
) -> Option<Timetable> {
    let mut schedule = Schedule::new(work, graph, latest, clearing, limit);
    for _ in 0..graph.symbols().saturating_mul(4) {
        schedule.round(work);
        if schedule.is_done() {
            return Some(schedule.table);
        }
        let layers = schedule.table.demand.layers;
        if !schedule.has_moved || layers > limit.layers || work.is_stopped() {
            return None;
        }
    }
    None
}

impl<'s> Schedule<'s> {
    fn new(
        work: &mut Work,
        graph: &'s LayerGraph,
        latest: &Times,
        clearing: &'s Clearing,
        limit: Limit<'s>,
    ) -> Schedule<'s> {
        let count = graph.symbols() as usize;
        let table = Timetable {
            layers: Vec::new(work.alloc),
            on: Table::new(work, count, NEVER),
            there: there_first(work, graph),
            demand: Demand {
                layers: 0,
                toffoli: 0,
                lines: 0,
            },
        };
        Schedule {
            graph,
            limit,
            room: Room::new(work, graph.symbols()),
            needs: Needs::of(work, graph, clearing),
            progress: Progress::of(work, graph, clearing, limit.parts),
            now: 0,
            front: 0,
            dues: dues_of(work, graph, latest),
            arriving: Vec::new(work.alloc),
            making: Vec::new(work.alloc),
            onto: Table::new(work, graph.outputs as usize, 0),
            has_moved: false,
            layer: Layer::empty(work),
            table,
        }
    }

    // A boundary, and the layer behind it.
    fn round(&mut self, work: &mut Work) {
        self.has_moved = false;
        self.advance(work);
        self.now = self.now.saturating_add(1);
        self.room.advance();
        self.arrive_all(work);
        self.note_lines();
        self.depart_all(work);
        if !self.is_done() {
            self.ask_all(work);
            self.clear_all(work);
            self.make_all(work);
            self.note_lines();
        }
        self.finish_layer(work);
    }

    // What is due next, once all products that were due are made.
    fn advance(&mut self, work: &mut Work) {
        if self.is_open() {
            return;
        }
        let Some(due) = self.dues.get_mut(self.front as usize) else {
            return;
        };
        let due = work.take(due);
        self.front = self.front.saturating_add(1);
        self.has_moved = true;
        for symbol in &due {
            let list = if self.graph.is_linear(*symbol) {
                &mut self.arriving
            } else {
                &mut self.making
            };
            work.push(list, *symbol);
        }
        self.making.sort_unstable();
    }

    // Whether a product is due that may be made now.
    fn is_open(&self) -> bool {
        for symbol in &self.making {
            if self.is_in_window(*symbol) {
                return true;
            }
        }
        false
    }

    // Whether nodes of a node's part may be made now.
    fn is_in_window(&self, symbol: u32) -> bool {
        match self.limit.window {
            Some(window) => {
                let behind = self.progress.first.saturating_add(window);
                self.limit.parts.get(symbol) < behind
            }
            None => true,
        }
    }

    // Whether nothing is left to be made.
    fn is_done(&self) -> bool {
        self.front as usize >= self.dues.len() && self.arriving.is_empty() && self.making.is_empty()
    }

    fn is_there(&self, symbols: &[u32]) -> bool {
        symbols
            .iter()
            .all(|symbol| self.table.there.get(*symbol) <= self.now)
    }

    fn are_factors_there(&self, symbol: u32) -> bool {
        let [first, second] = self.graph.factors(symbol);
        self.is_there(first) && self.is_there(second)
    }

    // Whether a node may take so many lines, and leave what others want.
    fn has_room(&self, symbol: u32, lines: u32) -> bool {
        let mut others = RESERVE;
        if self.limit.window.is_some() {
            others = others.saturating_add(self.progress.kept_free(symbol));
        }
        self.is_within(lines.saturating_add(others)) && self.is_in_window(symbol)
    }

    // Whether there are so many lines.
    fn is_within(&self, lines: u32) -> bool {
        self.room.lines().saturating_add(lines) <= self.limit.lines
    }

    // How many lines nodes without a product leave to the factors of products that can be cleared,
    // which makes lines free.
    fn clearing_lines(&self) -> u32 {
        number(self.needs.products.len())
    }

    // Notes the lines that are taken now.
    fn note_lines(&mut self) {
        let demand = &mut self.table.demand;
        demand.lines = demand.lines.max(self.room.lines());
    }

    // ---- at the boundary

    fn arrive_all(&mut self, work: &mut Work) {
        let mut arriving = work.take(&mut self.arriving);
        work.spend(arriving.len() as u64);
        arriving.sort_unstable();
        for symbol in &arriving {
            if !self.arrives(work, *symbol) {
                work.push(&mut self.arriving, *symbol);
            }
        }
    }

    // Whether a node is there now.
    fn arrives(&mut self, work: &mut Work, symbol: u32) -> bool {
        let graph = self.graph;
        let Some(node) = graph.node(symbol) else {
            return true;
        };
        let takes_line = node.is_linear() && node.onto.is_none();
        let lines = self.clearing_lines().saturating_add(1);
        if !self.is_there(&node.bits) || takes_line && !self.has_room(symbol, lines) {
            return false;
        }
        self.has_moved = true;
        self.table.there.set(symbol, self.now);
        if takes_line {
            self.room.held = self.room.held.saturating_add(1);
            self.table.on.set(symbol, self.now);
            self.progress.note_made(symbol);
        }
        self.needs.pass_bits(work, symbol);
        work.push(&mut self.layer.arrivals, symbol);
        true
    }

    // Clears nodes without products.
    fn depart_all(&mut self, work: &mut Work) {
        for _ in 0..self.graph.nodes.len() {
            let Some(symbol) = self.needs.linear.pop() else {
                return;
            };
            self.has_moved = true;
            self.room.held = self.room.held.saturating_sub(1);
            self.needs.pass_clearing(work, symbol);
            work.push(&mut self.layer.departures, symbol);
        }
    }

    // ---- in the layer

    // Asks for what all nodes that can be made or cleared want.
    fn ask_all(&mut self, work: &mut Work) {
        self.room.ask_all(self.graph, &self.needs.products);
        let making = work.copy(&self.making);
        self.ask_made(&making);
    }

    fn ask_made(&mut self, making: &[u32]) {
        let graph = self.graph;
        for symbol in making {
            if self.are_factors_there(*symbol) {
                self.room.ask_all(graph, &[*symbol]);
            }
        }
    }

    fn clear_all(&mut self, work: &mut Work) {
        let ready = work.take(&mut self.needs.products);
        work.spend(ready.len() as u64);
        for symbol in &ready {
            let factors = self.graph.factors(*symbol);
            if self.is_within(self.room.wanted(factors)) {
                self.room.take(factors);
                work.push(&mut self.layer.cleared, *symbol);
            } else {
                work.push(&mut self.needs.products, *symbol);
            }
        }
    }

    fn make_all(&mut self, work: &mut Work) {
        let making = work.take(&mut self.making);
        let mut refused: u32 = 0;
        work.spend(making.len() as u64);
        for symbol in &making {
            let is_ready = refused < MOST_REFUSED && self.are_factors_there(*symbol);
            if !is_ready || !self.makes(work, *symbol) {
                refused = refused.saturating_add(u32::from(is_ready));
                work.push(&mut self.making, *symbol);
            }
        }
    }

    // Whether a product is made in the layer.
    fn makes(&mut self, work: &mut Work, symbol: u32) -> bool {
        let factors = self.graph.factors(symbol);
        let wanted = self.room.wanted(factors);
        let is_made = match self.graph.onto(symbol) {
            Some(onto) => self.goes_onto(onto.output, wanted),
            None => self.takes_line(work, symbol, wanted),
        };
        if is_made {
            self.room.take(factors);
            self.table.on.set(symbol, self.now);
            self.progress.note_made(symbol);
            work.push(&mut self.layer.made, symbol);
        }
        is_made
    }

    // Whether a product whose factors want so many lines goes onto the line of an output.
    fn goes_onto(&mut self, output: u32, wanted: u32) -> bool {
        if self.onto.get(output) == self.now || !self.is_within(wanted) {
            return false;
        }
        self.onto.set(output, self.now);
        self.table.demand.toffoli = self.table.demand.toffoli.saturating_add(1);
        true
    }

    // Whether a product whose factors want so many lines gets one of its own.
    fn takes_line(&mut self, work: &mut Work, symbol: u32, wanted: u32) -> bool {
        if !self.has_room(symbol, wanted.saturating_add(1)) {
            return false;
        }
        self.room.held = self.room.held.saturating_add(1);
        self.table.demand.toffoli = self.table.demand.toffoli.saturating_add(2);
        work.push(&mut self.arriving, symbol);
        true
    }

    fn finish_layer(&mut self, work: &mut Work) {
        let layer = mem::replace(&mut self.layer, Layer::empty(work));
        for symbol in &layer.made {
            self.needs.pass_factors(work, *symbol);
        }
        for symbol in &layer.cleared {
            self.room.held = self.room.held.saturating_sub(1);
            self.progress.note_done(*symbol);
            self.needs.pass_clearing(work, *symbol);
        }
        let demand = &mut self.table.demand;
        let cleared = layer.cleared.len() as u64;
        demand.toffoli = demand.toffoli.saturating_add(cleared.saturating_mul(2));
        if cleared > 0 || !layer.made.is_empty() {
            demand.layers = demand.layers.saturating_add(1);
            self.has_moved = true;
        }
        work.push(&mut self.table.layers, layer);
    }
}

// When each symbol is there before anything is made: inputs are.
fn there_first(work: &mut Work, graph: &LayerGraph) -> Table<u32> {
    let mut there = Table::new(work, graph.symbols() as usize, NEVER);
    for input in 0..graph.inputs {
        there.set(input, 0);
    }
    there
}

// The nodes by their latest times.
fn dues_of(work: &mut Work, graph: &LayerGraph, latest: &Times) -> Vec<Vec<u32>> {
    let mut dues = work.lists(latest.depth as usize + 2);
    for symbol in graph.inputs..graph.symbols() {
        if let Some(due) = dues.get_mut(latest.on.get(symbol) as usize) {
            work.push(due, symbol);
        }
    }
    dues
}
