// The best of the plans that clean so many parts.
use crate::cleaning::{Clearing, Plan};
use crate::grouping::{Parted, grouped};
use crate::scheduling::{Demand, Limit, Timetable, schedule_within};
use crate::times::Times;
use layer_graphs::{LayerGraph, Widths};
use plan_tools::Work;

// Into how many parts the nodes are cut.
const COUNTS: [u32; 17] = [
    2, 3, 4, 5, 6, 8, 10, 12, 16, 20, 24, 32, 40, 48, 64, 96, 128,
];

// In what order ways are tried, each where those before it take more layers than there are levels.
const WAYS: [Way; 5] = [
    Way::Apart,
    Way::Grouped,
    Way::Within(1_000),
    Way::Within(2),
    Way::Within(1),
];

// In how many symbols nodes without a product are written out, at first, and where that is better.
const LEFT: usize = 8;

const MORE_LEFT: usize = 16;

// How often half of the parts that may be cleaned are left out.
const HALVINGS: u32 = 7;

/// A timetable, the graph of which it is, and what is cleared in it.
#[derive(Drop)]
pub struct Found {
    pub graph: LayerGraph,
    pub table: Timetable,
    pub clearing: Clearing,
}

// How nodes are made.
#[derive(Clone, Copy)]
enum Way {
    /// Those of any part at a time.
    Apart,
    /// The same, where symbols that later parts use together are grouped.
    Grouped,
    /// Those of so many parts at a time, which leave lines to the first one; grouped too.
    Within(u32),
}

impl Way {
    fn window(self) -> Option<u32> {
        match self {
            Way::Apart | Way::Grouped => None,
            Way::Within(window) => Some(window),
        }
    }

    // Whether what could be cleared at the end alone is kept: not where few parts are made at a
    // time, and layers come late.
    fn keeps_late(self) -> bool {
        match self {
            Way::Apart | Way::Grouped => true,
            Way::Within(window) => window > 2,
        }
    }

    // How many of so many parts are not cleaned.
    fn kept(self, count: u32) -> [u32; 3] {
        match self {
            Way::Apart | Way::Grouped => [1, 2, count / 4],
            Way::Within(_) => [1, 0, 2],
        }
    }

    // How many of so many parts that are cleaned have symbols grouped.
    fn grouped(self, cleaned: u32) -> u32 {
        match self {
            Way::Apart => 0,
            Way::Grouped | Way::Within(_) => cleaned,
        }
    }
}

// How many parts there are, how many of them are cleaned, how nodes are made; and in how many
// symbols they are written out.
#[derive(Clone, Copy)]
struct Choice {
    count: u32,
    cleaned: u32,
    way: Way,
    left: usize,
}

// A choice, and what its plan comes to.
#[derive(Clone, Copy)]
struct Best {
    demand: Demand,
    choice: Choice,
}

#[derive(Drop)]
struct Search<'s> {
    graph: &'s LayerGraph,
    /// How many layers there are at least.
    depth: u32,
    widths: Widths,
    /// The most work lines.
    most: u32,
    best: Option<Best>,
}

/// The best plan that is found of at most so many work lines: nothing is cleaned but nodes without
/// a product, or, where that takes too many lines, as many parts as are needed. The work gives up
/// where no plan has few enough lines.
pub fn best_timetable(work: &mut Work, graph: &LayerGraph, most: u32) -> Option<Found> {
    let mut search = Search {
        graph,
        depth: Times::of(work, graph).depth,
        widths: Widths::of(work, graph),
        most,
        best: None,
    };
    search.try_all(work);
    match search.best {
        Some(best) => search.found(work, best.choice),
        None => {
            work.give_up();
            None
        }
    }
}

impl Search<'_> {
    fn try_all(&mut self, work: &mut Work) {
        let whole = Choice {
            count: 1,
            cleaned: 0,
            way: Way::Apart,
            left: LEFT,
        };
        self.fits(work, whole);
        for way in WAYS {
            self.try_way(work, way);
        }
        self.clean_less(work, LEFT);
        if let Some(Best { choice, .. }) = self.best {
            let left = MORE_LEFT;
            self.fits(work, Choice { left, ..choice });
            self.clean_less(work, left);
        }
    }

    // Cleans most parts, unless a plan of as few layers as can be was found another way.
    fn try_way(&mut self, work: &mut Work, way: Way) {
        if self
            .best
            .is_some_and(|best| best.demand.layers <= self.depth)
        {
            return;
        }
        for count in COUNTS {
            for kept in way.kept(count) {
                let choice = Choice {
                    count,
                    cleaned: count.saturating_sub(kept),
                    way,
                    left: LEFT,
                };
                self.fits(work, choice);
            }
        }
    }

    // Cleans as few parts of the best choice as can be, where nodes are written out in so many
    // symbols.
    fn clean_less(&mut self, work: &mut Work, left: usize) {
        let Some(Best { choice, .. }) = self.best else {
            return;
        };
        let choice = Choice { left, ..choice };
        let (mut low, mut high) = (0_u32, choice.cleaned);
        for _ in 0..HALVINGS {
            let cleaned = low.midpoint(high);
            if low >= high {
                return;
            }
            if self.fits(work, Choice { cleaned, ..choice }) {
                high = cleaned;
            } else {
                low = cleaned.saturating_add(1);
            }
        }
    }

    // Whether the plan of a choice has few enough lines, and no more layers than the best one.
    // Where it is better, it is the best one.
    fn fits(&mut self, work: &mut Work, choice: Choice) -> bool {
        work.spend(self.graph.nodes.len() as u64);
        let Some(Found { table, .. }) = self.found(work, choice) else {
            return false;
        };
        let demand = table.demand;
        if self.best.is_none_or(|best| demand < best.demand) {
            self.best = Some(Best { demand, choice });
        }
        true
    }

    fn found(&self, work: &mut Work, choice: Choice) -> Option<Found> {
        let parts = self.widths.parts(work, self.graph, choice.count);
        let Parted { graph, parts } = grouped(
            work,
            self.graph,
            &parts,
            choice.way.grouped(choice.cleaned),
        );
        let plan = Plan {
            parts: &parts,
            cleaned: choice.cleaned,
            left: choice.left,
        };
        let latest = Times::of(work, &graph);
        let mut clearing = Clearing::of(work, &graph, plan);
        if choice.way.keeps_late() {
            clearing.keep_late(work, &graph, &latest);
        }
        let limit = Limit {
            parts: &parts,
            lines: self.most,
            layers: self.best.map_or(u32::MAX, |best| best.demand.layers),
            window: choice.way.window(),
        };
        let table = schedule_within(work, &graph, &latest, &clearing, limit)?;
        Some(Found {
            graph,
            table,
            clearing,
        })
    }
}
