// Passes over all nodes, until none gains.
use crate::wide::vanish;
use graph_cleaning::clean;
use plan_tools::Work;
use product_rows::by_rank;
use symbol_graphs::{GONE, Graph, nodes_in_order};
use symbol_windows::{Target, Width, Window, grown};
use window_rewriting::{Gain, Vain, rewrite};

/// In which order nodes are gone over.
#[derive(Clone, Copy, PartialEq, Eq)]
pub enum Order {
    /// From the inputs.
    Forth,
    /// From the outputs.
    Back,
}

impl Order {
    /// The other one.
    pub fn turned(self) -> Order {
        match self {
            Order::Forth => Order::Back,
            Order::Back => Order::Forth,
        }
    }
}

// The most passes of one plateau.
const MOST_PASSES: usize = 16;

// A pass gains where it takes away more than one product in so many.
const LEAST_GAIN: usize = 400;

// The most products of a node that are seeds, and of which others are looked for beside a seed; and
// how many of them are taken together.
const MOST_SEEDS: usize = 64;

const MOST_OWN: usize = 8;

// Where so many products were gone over and none was gained, nothing is looked for any more.
const FRUITLESS: usize = 2_000;

/// So many products are more than are gone over once more where that gained nothing.
pub const FEW_PRODUCTS: usize = 500;

// What a pass looks for.
#[derive(Clone, Copy, PartialEq, Eq)]
enum Aim {
    // Fewer products.
    Fewer,
    // Products of fewer symbols too.
    Simpler,
    // Products that are sums of what stays in wide windows.
    Wide,
}

impl Aim {
    fn width(self) -> Width {
        if self == Aim::Wide {
            Width::Wide(0)
        } else {
            Width::Narrow
        }
    }
}

// A pass, and the units that may be spent until its end.
#[derive(Clone, Copy)]
struct Search {
    order: Order,
    most_units: u64,
    aim: Aim,
}

/// Passes in one order until none gains, with simpler products and then in wide windows where
/// nothing else is found.
pub fn settle(graph: &mut Graph, work: &mut Work, vain: &mut Vain, order: Order, most_units: u64) {
    let mut search = Search {
        order,
        most_units,
        aim: Aim::Fewer,
    };
    let mut had_gain = true;
    let mut had_simpler = false;
    let mut before = graph.count();
    for number in 0..MOST_PASSES {
        let simpler = pass(graph, work, vain, search);
        clean(graph, work);
        let now = graph.count();
        let gains = before.saturating_sub(now).saturating_mul(LEAST_GAIN) > now;
        let is_fruitless = number == 0 && now >= before && now > FEW_PRODUCTS;
        before = now;
        if is_fruitless || work.is_stopped() || work.spent() > most_units {
            return;
        }
        if search.aim != Aim::Wide {
            had_simpler = simpler > 0;
        }
        search.aim = match search.aim {
            _ if gains => Aim::Fewer,
            Aim::Fewer => Aim::Simpler,
            Aim::Simpler => Aim::Wide,
            Aim::Wide if had_simpler && had_gain => Aim::Fewer,
            Aim::Wide => return,
        };
        if search.aim == Aim::Fewer {
            had_gain = gains;
        }
    }
}

// One pass; how many products became simpler.
fn pass(graph: &mut Graph, work: &mut Work, vain: &mut Vain, search: Search) -> usize {
    let mut simpler: usize = 0;
    let mut seen: usize = 0;
    let mut gained: usize = 0;
    for node in &nodes_of(graph, work, search.order) {
        let is_fruitless = seen >= FRUITLESS && gained == 0 && simpler == 0;
        if work.is_stopped() || work.spent() > search.most_units || is_fruitless {
            break;
        }
        seen = seen.saturating_add(graph.products(*node).len());
        let gain = rewrite_node(graph, work, vain, *node, search.aim);
        gained = gained.saturating_add(gain.products);
        simpler = simpler.saturating_add(usize::from(gain.is_simpler));
    }
    simpler
}

// The nodes that are there, in an order.
fn nodes_of(graph: &Graph, work: &mut Work, order: Order) -> Vec<u32> {
    let mut nodes = nodes_in_order(graph, work);
    if order == Order::Back {
        nodes.reverse();
    }
    nodes
}

// ---- one node

// Rewrites the products of a node: each is a seed beside which others are taken, and is tried alone
// where that gains nothing.
fn rewrite_node(graph: &mut Graph, work: &mut Work, vain: &mut Vain, node: u32, aim: Aim) -> Gain {
    let mut all = Gain::NONE;
    all.products = by_rank(graph, work, node);
    let mut seed = 0;
    for _ in 0..MOST_SEEDS.saturating_mul(4) {
        if seed >= graph.products(node).len().min(MOST_SEEDS) || graph.node_place(node) == GONE {
            break;
        }
        let gain = rewrite_seed(graph, work, vain, node, seed, aim);
        all.products = all.products.saturating_add(gain.products);
        all.is_simpler = all.is_simpler || gain.is_simpler;
        if gain.products == 0 {
            seed += 1;
        }
    }
    all
}

fn rewrite_seed(
    graph: &mut Graph,
    work: &mut Work,
    vain: &mut Vain,
    node: u32,
    seed: usize,
    aim: Aim,
) -> Gain {
    let target = target_of(graph, work, node, seed, aim.width());
    let gain = rewrite_target(graph, work, vain, &target, aim);
    if gain.products > 0 || target.own.len() < 2 {
        return gain;
    }
    let alone = Target {
        node,
        own: work.copy(&[seed]),
    };
    rewrite_target(graph, work, vain, &alone, aim)
}

fn rewrite_target(
    graph: &mut Graph,
    work: &mut Work,
    vain: &mut Vain,
    target: &Target,
    aim: Aim,
) -> Gain {
    match grown(graph, work, target, aim.width()) {
        Some(window) if aim == Aim::Wide => vanish(graph, work, target, window),
        Some(window) => rewrite(graph, work, vain, target, window, aim == Aim::Simpler),
        None => Gain::NONE,
    }
}

// A seed, and the products beside it that are of few more sums.
fn target_of(graph: &Graph, work: &mut Work, node: u32, seed: usize, width: Width) -> Target {
    let mut target = Target {
        node,
        own: work.copy(&[seed]),
    };
    let count = graph.products(node).len();
    let Some(window) = Window::of(graph, work, &target, Vec::new(work.alloc), width) else {
        return target;
    };
    let mut rank = window.rank();
    for _ in 1..count.min(MOST_OWN) {
        let Some((more, place)) = nearest(graph, work, &target, width, rank) else {
            break;
        };
        if more >= rank.saturating_add(2) {
            break;
        }
        work.push(&mut target.own, place);
        rank = more;
    }
    target
}

// The product that is of the fewest sums together with a target's, and how many these are.
fn nearest(
    graph: &Graph,
    work: &mut Work,
    target: &Target,
    width: Width,
    rank: usize,
) -> Option<(usize, usize)> {
    let count = graph.products(target.node).len();
    let mut best: Option<(usize, usize)> = None;
    if count > MOST_SEEDS {
        return None;
    }
    for place in 0..count {
        if target.has(place) {
            continue;
        }
        let mut own = work.copy(&target.own);
        work.push(&mut own, place);
        let both = Target {
            node: target.node,
            own,
        };
        let Some(window) = Window::of(graph, work, &both, Vec::new(work.alloc), width) else {
            continue;
        };
        let found = window.rank();
        if best.is_none_or(|best| (found, place) < best) {
            best = Some((found, place));
        }
        if found == rank {
            break;
        }
    }
    best
}
