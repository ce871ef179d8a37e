// The moves of a plan in layers.
use layer_graphs::{LayerGraph, Node};
use layer_lines::Lines;
use layer_times::{Clearing, Found, Layer, Room, Timetable};
use line_moves::Moves;
use plan_tools::{NOWHERE, Stop, Work};
use std::alloc::Global;

/// Where a factor of several symbols stands of which one is in no other factor of its layer.
#[derive(Clone, Copy)]
pub enum Style {
    /// On the line of that symbol, to which the others are added for the layer.
    InPlace,
    /// There, unless a temporary line holds the factor.
    Held,
    /// On a temporary line.
    Apart,
}

// A Toffoli gate of a layer.
#[derive(Clone, Copy)]
struct Gate {
    /// The place of its node.
    place: u32,
    onto: u32,
    controls: [u32; 2],
    /// Whether it is undone in the reversed part.
    is_undone: bool,
}

// A copy onto the line of a symbol that a factor alone has, for the time of a layer.
#[derive(Clone, Copy)]
struct Gather {
    from: u32,
    onto: u32,
}

// Moves in the making.
#[derive(Drop)]
struct Writer<'w> {
    graph: &'w LayerGraph,
    table: &'w Timetable,
    clearing: &'w Clearing,
    style: Style,
    lines: Lines,
    /// The number of the boundary, and of the layer behind it.
    now: u32,
    /// The gates of the layer.
    gates: Vec<Gate>,
    gathers: Vec<Gather>,
    room: Room,
    work: Work,
}

/// Moves, and what they cost: lines times the cube of depth.
#[derive(Drop)]
pub struct Written {
    pub moves: Moves,
    pub cost: u64,
}

/// The moves of the plan of a timetable, on at most `limit` lines.
///
/// # Errors
///
/// The first refusal.
pub fn write(alloc: Global, found: &Found, limit: u32, style: Style) -> Result<Written, Stop> {
    let mut work = Work::new(alloc, u64::MAX);
    let graph = &found.graph;
    let mut writer = Writer {
        graph,
        table: &found.table,
        clearing: &found.clearing,
        style,
        lines: Lines::new(
            alloc,
            graph.inputs,
            graph.ports(),
            limit,
            graph.symbols() as usize,
        ),
        now: 0,
        gates: Vec::new(alloc),
        gathers: Vec::new(alloc),
        room: Room::new(&mut work, graph.symbols()),
        work,
    };
    writer.write_all();
    writer.finish()
}

impl Writer<'_> {
    fn write_all(&mut self) {
        let table = self.table;
        for layer in &table.layers {
            if self.lines.is_stopped() {
                return;
            }
            self.now = self.now.saturating_add(1);
            self.lines.advance(self.now);
            self.cross(layer);
            self.make_layer(layer);
        }
    }

    // What is done at a boundary.
    fn cross(&mut self, layer: &Layer) {
        for symbol in &layer.arrivals {
            self.arrive(*symbol);
        }
        for symbol in &layer.departures {
            self.depart(*symbol);
        }
    }

    // A node without a product is made, or added to the line of an output; to others come the bits
    // that were not there before.
    fn arrive(&mut self, symbol: u32) {
        let graph = self.graph;
        let Some(node) = graph.node(symbol) else {
            return;
        };
        if let Some(onto) = node.onto {
            self.lines.add_output(&node.bits, onto.output);
        } else if node.is_linear() {
            let number = self.number(symbol);
            let line = self.lines.make(number, &node.bits);
            self.name(symbol, line);
        } else {
            let line = self.lines.home(symbol);
            let late = self.bits_by(node, self.table.on.get(symbol), false);
            self.lines.add(&late, line);
        }
    }

    // The number of a node among those of the layers.
    fn number(&self, symbol: u32) -> u32 {
        symbol.saturating_sub(self.graph.inputs)
    }

    // Toggles a node without a product onto a line, if it is one of the graph of sums.
    fn name(&mut self, symbol: u32, line: u32) {
        if let Some(node) = self.graph.node(symbol)
            && let Some(place) = node.place
        {
            self.lines.name(place, line);
        }
    }

    // The bits of a node that are there at a boundary, or those that are not.
    fn bits_by(&mut self, node: &Node, boundary: u32, are_there: bool) -> Vec<u32> {
        let mut bits = Vec::new(self.work.alloc);
        for symbol in &node.bits {
            if (self.table.there.get(*symbol) <= boundary) == are_there {
                self.work.push(&mut bits, *symbol);
            }
        }
        bits
    }

    // Clears a node without a product: its line holds other symbols in its place.
    fn depart(&mut self, symbol: u32) {
        let (graph, clearing) = (self.graph, self.clearing);
        let number = self.number(symbol);
        self.lines.release(number);
        let line = self.lines.home(symbol);
        match clearing.left(symbol) {
            Some(left) => {
                for name in &left.names {
                    self.name(*name, line);
                }
            }
            None => self.name(symbol, line),
        }
        let [left, _, _] = clearing.operands(graph, symbol);
        self.lines.leave(number, left);
    }

    // The gates of a layer, behind what they want on their lines.
    fn make_layer(&mut self, layer: &Layer) {
        for symbol in &layer.cleared {
            let number = self.number(*symbol);
            self.lines.release(number);
        }
        self.room.advance();
        self.room.ask_all(self.graph, &layer.cleared);
        self.room.ask_all(self.graph, &layer.made);
        self.choose_all(&layer.cleared);
        self.choose_all(&layer.made);
        self.write_gates();
        self.leave_all(&layer.cleared);
    }

    fn choose_all(&mut self, symbols: &[u32]) {
        let graph = self.graph;
        for symbol in symbols {
            if let Some(node) = graph.node(*symbol) {
                self.choose(*symbol, node);
            }
        }
    }

    // Chooses the lines of a node's gate.
    fn choose(&mut self, symbol: u32, node: &Node) {
        let [first, second] = self.graph.factors(symbol);
        let controls = [self.control(first), self.control(second)];
        let onto = self.target(symbol, node);
        self.lines.note_use(onto);
        let gate = Gate {
            place: node.place.unwrap_or(NOWHERE),
            onto,
            controls,
            is_undone: node.onto.is_none(),
        };
        self.work.push(&mut self.gates, gate);
    }

    // The line of a factor: where no other factor has one of its symbols, that of this symbol, to
    // which the others are added for the layer.
    fn control(&mut self, factor: &[u32]) -> u32 {
        match self.own_line(factor) {
            Some(onto) if self.is_in_place(factor) => {
                self.gather(factor, onto);
                onto
            }
            _ => self.lines.control(factor),
        }
    }

    fn is_in_place(&mut self, factor: &[u32]) -> bool {
        match self.style {
            Style::InPlace => true,
            Style::Held => !self.lines.is_held(factor),
            Style::Apart => false,
        }
    }

    // Of the lines of the symbols that no other factor has, that which is free the soonest.
    fn own_line(&self, factor: &[u32]) -> Option<u32> {
        let mut best = None;
        let mut least = u32::MAX;
        for symbol in factor {
            let line = self.lines.home(*symbol);
            if factor.len() > 1 && self.room.is_own(*symbol) && self.lines.load(line) < least {
                best = Some(line);
                least = self.lines.load(line);
            }
        }
        best
    }

    fn gather(&mut self, factor: &[u32], onto: u32) {
        self.lines.note_use(onto);
        for symbol in factor {
            let from = self.lines.home(*symbol);
            if from != onto {
                self.work.push(&mut self.gathers, Gather { from, onto });
            }
        }
    }

    // The line of a node, or that of the output onto which it goes; where it is made, it takes one,
    // with the bits that are there.
    fn target(&mut self, symbol: u32, node: &Node) -> u32 {
        if let Some(onto) = node.onto {
            return self.graph.inputs.saturating_add(onto.output);
        }
        if self.table.on.get(symbol) < self.now {
            return self.lines.home(symbol);
        }
        let early = self.bits_by(node, self.now, true);
        let number = self.number(symbol);
        self.lines.make(number, &early)
    }

    fn write_gates(&mut self) {
        self.write_gathers();
        for gate in &self.gates {
            self.lines
                .toggle(gate.place, gate.onto, gate.controls, gate.is_undone);
        }
        self.gates.clear();
        self.lines.advance(self.now.saturating_add(1));
        self.write_gathers();
        self.gathers.clear();
    }

    fn write_gathers(&mut self) {
        for gather in &self.gathers {
            self.lines.copy(gather.from, gather.onto, true);
        }
    }

    // The lines of nodes that were cleared hold their bits.
    fn leave_all(&mut self, symbols: &[u32]) {
        let graph = self.graph;
        for symbol in symbols {
            let [bits, _, _] = graph.operands(*symbol);
            let number = self.number(*symbol);
            self.lines.leave(number, bits);
        }
    }

    fn finish(mut self) -> Result<Written, Stop> {
        self.work.finish(())?;
        let graph = self.graph;
        self.lines.reverse(graph.places, graph.outputs);
        let cost = self.lines.cost();
        let moves = self.lines.finish(graph.ports())?;
        Ok(Written { moves, cost })
    }
}
