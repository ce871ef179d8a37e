// The best of the plans with homes.
use crate::draft::Draft;
use crate::nodes::Nodes;
use crate::orders::Order;
use crate::script::moves_of;
use line_moves::Moves;
use plan_tools::{Limits, Size, Stop, Work};
use std::alloc::Global;
use sum_graph::SumGraph;

// The longest segment that is tried, and how many lengths are: each is half of the one before.
const LONGEST: u32 = 16_384;

const LENGTHS: u32 = 15;

// How many shares of the lines are tried: all, a quarter, and so on.
const SHARES: u32 = 6;

// How many depths of pebbling are tried.
const DEPTHS: u32 = 24;

/// The moves of a plan that keeps each node on a line of its own: of those that are tried the best
/// by its Toffoli gates, then by lines times gates, then by lines, which no clause says. With
/// `homes`, some nodes stand on the lines of outputs, which hold 0 in the beginning; without, these
/// may hold anything: what comes to them are the outputs alone. It has at most a line for each
/// input, output and node, and at most `toffoli` Toffoli gates.
///
/// # Errors
///
/// `GaveUp` where none of the plans that are tried is within the limits.
pub fn plan(
    alloc: Global,
    graph: &SumGraph,
    limits: Limits,
    homes: bool,
    toffoli: u64,
) -> Result<Moves, Stop> {
    let mut work = Work::new(alloc, 0);
    let nodes = Nodes::of(&mut work, graph, homes);
    let mut search = Search {
        nodes: &nodes,
        limits,
        toffoli,
        best: None,
        work,
    };
    if nodes.least_toffoli() <= toffoli {
        search.try_all();
    }
    search.moves(graph)
}

// A search for the best order.
#[derive(Drop)]
struct Search<'n> {
    nodes: &'n Nodes,
    limits: Limits,
    /// The most Toffoli gates that a plan may have.
    toffoli: u64,
    best: Option<Found>,
    /// Refused memory.
    work: Work,
}

// An order, and what its plan comes to.
#[derive(Clone, Copy)]
struct Found {
    size: Size,
    order: Order,
}

impl<'n> Search<'n> {
    fn try_all(&mut self) {
        let _fits = self.fits(Order::Ready);
        self.pebble();
        for halvings in 0..LENGTHS {
            let length = LONGEST >> halvings;
            let _fits = self.fits(Order::Segments { length });
        }
        for quarterings in 0..SHARES {
            let most = (self.limits.lines >> (2 * quarterings)).max(1);
            let _fits = self.fits(Order::Lazy { most });
        }
    }

    // The pebbling of the fewest halvings that fits.
    fn pebble(&mut self) {
        for depth in 0..=DEPTHS {
            if self.fits(Order::Pebbled { depth }) {
                return;
            }
        }
    }

    fn draft(&self, order: Order) -> Draft<'n> {
        order.draft(self.work.alloc, self.nodes, self.limits, self.toffoli)
    }

    // Whether a plan of this order fits, or has too many Toffoli gates. Where it is better than
    // those before, it is the best one.
    fn fits(&mut self, order: Order) -> bool {
        let draft = self.draft(order);
        match draft.size() {
            Ok(size) => {
                self.note(Found { size, order });
                true
            }
            Err(Stop::Memory(refused)) => {
                self.work.stop(Stop::Memory(refused));
                false
            }
            Err(Stop::GaveUp) => draft.is_beyond(),
        }
    }

    fn note(&mut self, found: Found) {
        let is_better = match self.best {
            Some(best) => found.size < best.size,
            None => true,
        };
        if is_better {
            self.best = Some(found);
        }
    }

    // The moves of the best plan.
    fn moves(&self, graph: &'n SumGraph) -> Result<Moves, Stop> {
        match self.work.finish(self.best) {
            Ok(Some(best)) => { moves_of(self.work.alloc, graph, &self.draft(best.order)) }
            Ok(None) => Err(Stop::GaveUp),
            Err(stop) => Err(stop),
        }
    }
}
