// In which order nodes are toggled on and off.
use crate::graph::{Node, SpanGraph};
use plan_tools::{Table, Work, number};

/// A turn of a schedule: a node, by its place in the order, is made, or is to be there no more.
#[derive(Clone, Copy)]
pub enum Turn {
    On(u32),
    Off(u32),
    /// A block begins.
    Open,
    /// A block of these nodes ends.
    Close(Range),
}

/// A range of places: from one to below another.
#[derive(Clone, Copy)]
pub struct Range {
    pub from: u32,
    pub to: u32,
}

/// Ranges of whole segments that are blocks.
#[derive(Clone, Copy)]
pub struct Blocks<'s> {
    pub ranges: &'s [Range],
    /// Of each node, whether it is made once more behind its block; of those beyond, it is not.
    pub repeats: &'s [bool],
}

impl Blocks<'_> {
    /// No blocks.
    pub const NONE: Blocks<'static> = Blocks {
        ranges: &[],
        repeats: &[],
    };

    // Whether the node at a place is made once more.
    fn repeats(self, place: u32) -> bool {
        self.repeats.get(place as usize) == Some(&true)
    }
}

/// How a schedule is made.
#[derive(Clone, Copy)]
pub struct Scheduling<'s> {
    /// The places at which segments begin.
    pub starts: &'s [u32],
    /// Behind how many segments, from the first on, their inner nodes go off: those in factors of
    /// the segment and in the bits of such nodes.
    pub cleaned: usize,
    /// Of each node, whether it has no products and took a line of its own in an earlier sweep: it
    /// goes off at the end of its segment.
    pub copies: &'s Table<bool>,
    pub blocks: Blocks<'s>,
}

impl Scheduling<'_> {
    /// Each node in turn; behind each segment those that go off, from the last one on.
    pub fn schedule(self, work: &mut Work, graph: &SpanGraph) -> Vec<Turn> {
        let mut turns = Vec::new(work.alloc);
        let mut inner = Table::new(work, graph.nodes.len(), false);
        for segment in 0..self.starts.len() {
            let range = self.range(graph, segment);
            self.push_on(work, range, &mut turns);
            if segment < self.cleaned {
                range.mark_inner(graph, &mut inner);
            }
            if self.starts.len() > 1 {
                self.push_off(work, graph, range, &inner, &mut turns);
            }
            self.push_close(work, graph, range, &inner, &mut turns);
        }
        turns
    }

    // The nodes of a segment.
    fn range(self, graph: &SpanGraph, segment: usize) -> Range {
        let next = self.starts.get(segment.saturating_add(1)).copied();
        Range {
            from: self.starts.get(segment).copied().unwrap_or(0),
            to: next.unwrap_or(number(graph.nodes.len())),
        }
    }

    // Appends the turns by which nodes are made, and a block begins with them, if one does.
    fn push_on(self, work: &mut Work, range: Range, turns: &mut Vec<Turn>) {
        for block in self.blocks.ranges {
            if block.from == range.from {
                work.push(turns, Turn::Open);
            }
        }
        for place in range.from..range.to {
            work.push(turns, Turn::On(place));
        }
    }

    // Appends the turns by which blocks end with a range, and nodes of these are made once more.
    fn push_close(
        self,
        work: &mut Work,
        graph: &SpanGraph,
        range: Range,
        inner: &Table<bool>,
        turns: &mut Vec<Turn>,
    ) {
        for block in self.blocks.ranges {
            if block.to == range.to {
                work.push(turns, Turn::Close(*block));
                self.push_repeats(work, graph, *block, inner, turns);
            }
        }
    }

    // Appends the turns by which nodes of a block are made once more, segment by segment.
    fn push_repeats(
        self,
        work: &mut Work,
        graph: &SpanGraph,
        block: Range,
        inner: &Table<bool>,
        turns: &mut Vec<Turn>,
    ) {
        for segment in 0..self.starts.len() {
            let range = self.range(graph, segment);
            if block.has(range.from) {
                self.push_repeats_on(work, range, turns);
                self.push_repeats_off(work, graph, range, inner, turns);
            }
        }
    }

    fn push_repeats_on(self, work: &mut Work, range: Range, turns: &mut Vec<Turn>) {
        for place in range.from..range.to {
            if self.blocks.repeats(place) {
                work.push(turns, Turn::On(place));
            }
        }
    }

    fn push_repeats_off(
        self,
        work: &mut Work,
        graph: &SpanGraph,
        range: Range,
        inner: &Table<bool>,
        turns: &mut Vec<Turn>,
    ) {
        for place in (range.from..range.to).rev() {
            if self.blocks.repeats(place) && self.goes_off(graph, place, inner) {
                work.push(turns, Turn::Off(place));
            }
        }
    }

    // Appends the turns by which nodes go off.
    fn push_off(
        self,
        work: &mut Work,
        graph: &SpanGraph,
        range: Range,
        inner: &Table<bool>,
        turns: &mut Vec<Turn>,
    ) {
        for place in (range.from..range.to).rev() {
            if self.goes_off(graph, place, inner) {
                work.push(turns, Turn::Off(place));
            }
        }
    }

    // Whether a node goes off at the end of its segment: one that has a line, but not that of an
    // output.
    fn goes_off(self, graph: &SpanGraph, place: u32, inner: &Table<bool>) -> bool {
        let Some(node) = graph.node(place) else {
            return false;
        };
        let marks = if node.is_linear() { self.copies } else { inner };
        !node.is_final && node.home.is_none() && marks.get(place)
    }
}

impl Range {
    /// How many places it has.
    pub fn size(self) -> u32 {
        self.to.saturating_sub(self.from)
    }

    /// Whether it has a place.
    pub fn has(self, place: u32) -> bool {
        self.from <= place && place < self.to
    }

    // Marks its nodes that are in factors of it, or in the bits of such a node.
    fn mark_inner(self, graph: &SpanGraph, inner: &mut Table<bool>) {
        for place in self.from..self.to {
            if let Some(node) = graph.node(place) {
                for product in &node.products {
                    self.mark(graph, &product.first, inner);
                    self.mark(graph, &product.second, inner);
                }
            }
        }
        for place in (self.from..self.to).rev() {
            if let Some(node) = graph.node(place) {
                if inner.get(place) {
                    self.mark(graph, node.bits(), inner);
                }
            }
        }
    }

    /// Marks its nodes with these symbols.
    pub fn mark(self, graph: &SpanGraph, symbols: &[u32], marks: &mut Table<bool>) {
        for symbol in symbols {
            if let Some(place) = graph.place(*symbol) {
                if self.has(place) {
                    marks.set(place, true);
                }
            }
        }
    }
}

/// Segments by chains of nodes with products, each of which has the one before in its sum: the
/// places at which a chain has ended. Nodes without such a link belong to the chain behind them.
pub fn chains(work: &mut Work, graph: &SpanGraph) -> Vec<u32> {
    let mut starts = work.copy(&[0]);
    let mut before = None;
    let mut is_linked = false;
    for (place, node) in graph.nodes.iter().enumerate() {
        if node.is_linear() {
            continue;
        }
        let place = number(place);
        if is_made_of(node, before) {
            is_linked = true;
        } else if is_linked {
            work.push(&mut starts, place);
            is_linked = false;
        }
        before = Some(graph.symbol(place));
    }
    starts
}

// Whether a symbol is in a factor or among the bits of a node.
fn is_made_of(node: &Node, symbol: Option<u32>) -> bool {
    let Some(symbol) = symbol else {
        return false;
    };
    for product in &node.products {
        if product.first.contains(&symbol) || product.second.contains(&symbol) {
            return true;
        }
    }
    node.bits().contains(&symbol)
}

/// Segments that begin where the rank has a least value between a fall and a rise by `by`.
pub fn minima(work: &mut Work, ranks: &[u32], by: u32) -> Vec<u32> {
    let mut starts = work.copy(&[0]);
    let mut trend = Trend {
        is_falling: false,
        extreme: ranks.first().copied().unwrap_or(0),
        place: 0,
    };
    for (place, rank) in ranks.iter().enumerate() {
        if let Some(start) = trend.next(number(place), *rank, by) {
            work.push(&mut starts, start);
        }
    }
    starts
}

// Where ranks go: the greatest one since they rise, or the least one since they fall, and its
// place.
#[derive(Clone, Copy)]
struct Trend {
    is_falling: bool,
    extreme: u32,
    place: u32,
}

impl Trend {
    // One rank more; the place of a minimum that lies behind now.
    fn next(&mut self, place: u32, rank: u32, by: u32) -> Option<u32> {
        let turns = if self.is_falling {
            rank >= self.extreme.saturating_add(by)
        } else {
            rank.saturating_add(by) <= self.extreme
        };
        let goes_on = if self.is_falling {
            rank <= self.extreme
        } else {
            rank >= self.extreme
        };
        let minimum = self.place;
        if goes_on || turns {
            self.extreme = rank;
            self.place = place;
        }
        if goes_on || !turns {
            return None;
        }
        self.is_falling = !self.is_falling;
        if self.is_falling { None } else { Some(minimum) }
    }
}
