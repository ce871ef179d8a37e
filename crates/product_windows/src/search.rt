// The search from both sides.
use crate::pairing::pair_up;
use crate::passes::{FEW_PRODUCTS, Order, settle};
use disjoint_products::drop_disjoint;
use graph_cleaning::{clean, regroup};
use plan_tools::{Stop, Work};
use product_rows::{by_table, drop_needless};
use row_networks::by_network;
use std::alloc::Global;
use symbol_graphs::{Graph, Proposal, Sums, SymbolSum};
use window_rewriting::Vain;

// The most units that are spent, and how many more for each product. A unit is some 80 ns.
const MOST_UNITS: u64 = 100_000_000;

const UNITS_A_PRODUCT: u64 = 4_000;

// How often the order is turned at most.
const MOST_TURNS: usize = 6;

// How often sums are put in the place of two nodes at most.
const MOST_ROUNDS: usize = 16;

// A turn gains where it takes away more than one product in so many.
const LEAST_GAIN: usize = 50;

// What is made anew by all rows of few inputs is taken where one product in so many goes.
const LEAST_GAIN_BY_ROWS: usize = 20;

/// Steps that leave a graph of sums with fewer products, so far as some are found: from the inputs,
/// and from the outputs, each in turns with the other, as long as that gains; from a table of the
/// outputs; with sums in the place of two nodes; and by all rows of few inputs.
///
/// # Errors
///
/// `GaveUp` where there are many products and none is gained, and `Memory` where memory is refused.
/// No clause says so.
pub fn propose(alloc: Global, sums: &Sums) -> Result<Proposal, Stop> {
    let mut work = Work::new(alloc, u64::MAX);
    let bounds = Bounds::of(sums);
    let mut vain = Vain::new(alloc);
    let mut begun = Graph::of(&mut work, sums);
    clean(&mut begun, &mut work);
    let best = with_disjoint(&begun, &mut work, &mut vain, bounds);
    if best.products >= bounds.products && bounds.are_many() {
        work.finish(())?;
        return Err(Stop::GaveUp);
    }
    let paired = with_pairs(
        Attempt::new(begun.copy(&mut work)),
        &mut work,
        &mut vain,
        bounds,
    );
    let best = with_table(begun, &mut work, &mut vain, bounds, best);
    let best = with_pairs(best, &mut work, &mut vain, bounds).better(paired);
    let best = with_network(best, &mut work, &mut vain, bounds);
    work.finish(best.into_proposal())
}

// The better one of the searches with and without products whose factors never meet.
fn with_disjoint(begun: &Graph, work: &mut Work, vain: &mut Vain, bounds: Bounds) -> Attempt {
    let mut graph = begun.copy(work);
    if !drop_disjoint(&mut graph, work) {
        return from_both_sides(begun, work, vain, bounds);
    }
    let without = from_both_sides(&graph, work, vain, bounds);
    without.better(from_both_sides(begun, work, vain, bounds))
}

// The better one of the searches that begin from the inputs and from the outputs, of which the
// second is left out where little was gained of much, or nothing is new.
fn from_both_sides(begun: &Graph, work: &mut Work, vain: &mut Vain, bounds: Bounds) -> Attempt {
    let mut forth = Attempt::new(begun.copy(work));
    forth.search(work, vain, Order::Forth, bounds);
    if bounds.is_fruitless(forth.products) {
        return forth;
    }
    let mut back = Attempt::new(begun.copy(work));
    let done = back.graph.done();
    back.prepare(work, bounds);
    if forth.products < forth.begun || back.graph.done() > done {
        back.search(work, vain, Order::Back, bounds);
    }
    forth.better(back)
}

// The better one of an attempt and of that from a table, where this is not far from it.
fn with_table(
    begun: Graph,
    work: &mut Work,
    vain: &mut Vain,
    bounds: Bounds,
    best: Attempt,
) -> Attempt {
    let mut graph = begun;
    if !by_table(&mut graph, work) {
        return best;
    }
    clean(&mut graph, work);
    if graph.count() >= best.products.saturating_mul(2) {
        return best;
    }
    best.better(from_both_sides(&graph, work, vain, bounds))
}

// The same with sums in the place of two nodes, as long as that gains.
fn with_pairs(begun: Attempt, work: &mut Work, vain: &mut Vain, bounds: Bounds) -> Attempt {
    let mut best = begun;
    for _ in 0..MOST_ROUNDS {
        let mut next = best.copy(work);
        if bounds.is_fruitless(best.products) || !next.pair_up(work, vain, bounds.units) {
            break;
        }
        if next.products >= best.products {
            break;
        }
        best = next;
    }
    best
}

// The same once products are made anew by the values in all rows of few inputs, where that takes
// more than a few away: it shares less, which costs plans lines and gates.
fn with_network(begun: Attempt, work: &mut Work, vain: &mut Vain, bounds: Bounds) -> Attempt {
    let mut next = begun.copy(work);
    if !by_network(&mut next.graph, work) {
        return begun;
    }
    next.settle_both(work, vain, bounds.units);
    let most = begun.products.saturating_mul(LEAST_GAIN_BY_ROWS - 1);
    if next.products.saturating_mul(LEAST_GAIN_BY_ROWS) <= most {
        next
    } else {
        begun
    }
}

// How many products there were before anything was done, and the units that may be spent.
#[derive(Clone, Copy)]
struct Bounds {
    products: usize,
    units: u64,
}

impl Bounds {
    fn of(sums: &Sums) -> Bounds {
        let products = count_of(&sums.nodes).saturating_add(count_of(&sums.outputs));
        Bounds {
            products,
            units: UNITS_A_PRODUCT
                .saturating_mul(products as u64)
                .saturating_add(MOST_UNITS),
        }
    }

    // Whether there are more products than are gone over in vain.
    fn are_many(self) -> bool {
        self.products > FEW_PRODUCTS
    }

    // Whether little was gained, where there is too much to be gone over once more.
    fn is_fruitless(self, now: usize) -> bool {
        let most = self.products.saturating_mul(LEAST_GAIN - 1);
        self.are_many() && now.saturating_mul(LEAST_GAIN) > most
    }
}

fn count_of(sums: &[SymbolSum]) -> usize {
    let mut count: usize = 0;
    for sum in sums {
        count = count.saturating_add(sum.products.len());
    }
    count
}

// A graph, how many products it had before, how few then, and behind how many steps.
#[derive(Drop)]
struct Attempt {
    graph: Graph,
    begun: usize,
    products: usize,
    steps: usize,
}

impl Attempt {
    // A graph that is clean.
    fn new(graph: Graph) -> Attempt {
        Attempt {
            begun: graph.count(),
            products: graph.count(),
            steps: graph.done(),
            graph,
        }
    }

    fn copy(&self, work: &mut Work) -> Attempt {
        Attempt {
            graph: self.graph.copy(work),
            begun: self.begun,
            products: self.products,
            steps: self.steps,
        }
    }

    // Puts sums in the place of two nodes, and looks for fewer products then; whether there were
    // such nodes.
    fn pair_up(&mut self, work: &mut Work, vain: &mut Vain, most_units: u64) -> bool {
        if pair_up(&mut self.graph, work, vain, most_units) == 0 {
            return false;
        }
        self.settle_both(work, vain, most_units);
        true
    }

    // A plateau from the outputs, then one from the inputs.
    fn settle_both(&mut self, work: &mut Work, vain: &mut Vain, most_units: u64) {
        clean(&mut self.graph, work);
        self.settle(work, vain, Order::Back, most_units);
        self.settle(work, vain, Order::Forth, most_units);
    }

    // Plateaus in both orders, as long as they gain.
    fn search(&mut self, work: &mut Work, vain: &mut Vain, start: Order, bounds: Bounds) {
        let mut order = start;
        let mut last = usize::MAX;
        for turn in 0..MOST_TURNS {
            if turn > 0 {
                self.prepare(work, bounds);
            }
            let now = self.settle(work, vain, order, bounds.units);
            let gains = now.saturating_mul(LEAST_GAIN) <= last.saturating_mul(LEAST_GAIN - 1);
            if now >= last.min(self.begun) || now == 0 || work.is_stopped() {
                return;
            }
            if work.spent() > bounds.units || bounds.is_fruitless(now) || turn > 0 && !gains {
                return;
            }
            last = now;
            order = order.turned();
        }
    }

    // Takes out what all rows of few inputs show, and groups products anew.
    fn prepare(&mut self, work: &mut Work, bounds: Bounds) {
        if work.spent() > bounds.units {
            return;
        }
        drop_needless(&mut self.graph, work);
        clean(&mut self.graph, work);
        regroup(&mut self.graph, work);
        clean(&mut self.graph, work);
    }

    // Passes in one order until none gains; how many products there are then.
    fn settle(&mut self, work: &mut Work, vain: &mut Vain, order: Order, most_units: u64) -> usize {
        settle(&mut self.graph, work, vain, order, most_units);
        let now = self.graph.count();
        if now < self.products {
            self.products = now;
            self.steps = self.graph.done();
        }
        now
    }

    // The one with fewer products.
    fn better(self, other: Attempt) -> Attempt {
        if other.products < self.products {
            other
        } else {
            self
        }
    }

    fn into_proposal(self) -> Proposal {
        self.graph.into_proposal(self.steps)
    }
}
