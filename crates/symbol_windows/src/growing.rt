// How windows grow: node by node where few more sums come of it, and by nodes beside the target.
use crate::windows::{Target, Width, Window, has_symbol};
use plan_tools::Work;
use symbol_graphs::Graph;

// The most nodes that are opened, the most of them without products, and how many are tried for
// each.
const MOST_OPENED: usize = 12;

const MOST_OPENED_WIDE: usize = 20;

const MOST_LINEAR: usize = 3;

const MOST_TRIED: usize = 12;

// The most products and bits of a node that is opened.
const MOST_PRODUCTS: usize = 8;

const MOST_BITS: usize = 24;

// The most nodes beside the target that are opened, the most products and bits of one, and the most
// users of a symbol that are looked at.
const MOST_BESIDE: usize = 6;

const MOST_PRODUCTS_BESIDE: usize = 2;

const MOST_BITS_BESIDE: usize = 12;

const MOST_USERS: usize = 16;

/// The window of a target, grown.
pub fn grown(graph: &Graph, work: &mut Work, target: &Target, width: Width) -> Option<Window> {
    let most = match width {
        Width::Narrow => MOST_OPENED,
        Width::Wide(_) => MOST_OPENED_WIDE,
    };
    let mut window = Window::of(graph, work, target, Vec::new(work.alloc), width)?;
    for _ in 0..most {
        let Some(next) = best_grown(graph, work, target, &window) else {
            break;
        };
        window = next;
    }
    Some(with_nodes_beside(graph, work, target, window))
}

// How good it is to open a node: few sums, used inside alone, and many products.
#[derive(Clone, Copy, PartialEq, Eq, PartialOrd, Ord)]
struct Cost {
    rank: usize,
    is_used_outside: bool,
    products_less: usize,
}

/// The best window with one more node.
pub fn best_grown(
    graph: &Graph,
    work: &mut Work,
    target: &Target,
    window: &Window,
) -> Option<Window> {
    let mut least: Option<Cost> = None;
    let mut best = None;
    for symbol in &candidates(graph, work, window) {
        let Some((cost, found)) = grown_by(graph, work, target, window, *symbol) else {
            continue;
        };
        if least.is_none_or(|least| cost < least) {
            least = Some(cost);
            best = Some(found);
        }
    }
    best
}

// The nodes in a window's sums that are not opened, the last ones.
fn candidates(graph: &Graph, work: &mut Work, window: &Window) -> Vec<u32> {
    let mut found = Vec::new(work.alloc);
    for sum in &window.basis {
        for symbol in sum {
            if *symbol >= graph.inputs && !window.opened.contains(symbol) {
                work.push(&mut found, (u64::MAX - graph.place(*symbol), *symbol));
            }
        }
    }
    work.note(found.sort());
    found.dedup();
    let mut symbols = Vec::new(work.alloc);
    for (_, symbol) in found.iter().take(MOST_TRIED) {
        work.push(&mut symbols, *symbol);
    }
    symbols
}

// A window with one more node, and its cost.
fn grown_by(
    graph: &Graph,
    work: &mut Work,
    target: &Target,
    window: &Window,
    symbol: u32,
) -> Option<(Cost, Window)> {
    let sum = graph.sum_of_symbol(symbol)?;
    let products = sum.products.len();
    if products > MOST_PRODUCTS || sum.bits.len() > MOST_BITS {
        return None;
    }
    let opened = opened_with(graph, work, &window.opened, symbol);
    let found = Window::of(graph, work, target, opened, window.width)?;
    let is_linear = products == 0 && found.rank() >= window.rank();
    if is_linear && linear_nodes(graph, &window.opened) >= MOST_LINEAR {
        return None;
    }
    let cost = Cost {
        rank: found.rank().saturating_add(if is_linear { 2 } else { 0 }),
        is_used_outside: is_used_outside(graph, target, window, symbol),
        products_less: MOST_PRODUCTS.saturating_sub(products),
    };
    Some((cost, found))
}

// Whether a node is an output, or used by others than the target and opened ones.
fn is_used_outside(graph: &Graph, target: &Target, window: &Window, symbol: u32) -> bool {
    let is_outside = |user: &u32| *user != target.node
        && !window.opened.contains(&graph.symbol(*user));
    match graph.node(symbol) {
        Some(node) => graph.is_output(node) || graph.users(symbol).iter().any(is_outside),
        None => true,
    }
}

fn linear_nodes(graph: &Graph, opened: &[u32]) -> usize {
    let mut count: usize = 0;
    for symbol in opened {
        if let Some(node) = graph.node(*symbol)
            && graph.products(node).is_empty()
        {
            count = count.saturating_add(1);
        }
    }
    count
}

// Opened nodes and one more, in the order of the graph.
fn opened_with(graph: &Graph, work: &mut Work, opened: &[u32], symbol: u32) -> Vec<u32> {
    let place = graph.place(symbol);
    let mut all = Vec::new(work.alloc);
    let mut is_in = false;
    for other in opened {
        if !is_in && graph.place(*other) > place {
            work.push(&mut all, symbol);
            is_in = true;
        }
        work.push(&mut all, *other);
    }
    if !is_in {
        work.push(&mut all, symbol);
    }
    all
}

// ---- nodes beside the target

// The window with nodes whose products are of its sums.
fn with_nodes_beside(graph: &Graph, work: &mut Work, target: &Target, window: Window) -> Window {
    let mut window = window;
    let mut found = 0;
    for node in &nodes_beside(graph, work, target, &window) {
        if found >= MOST_BESIDE {
            break;
        }
        let opened = opened_with(graph, work, &window.opened, graph.symbol(*node));
        if let Some(more) = Window::of(graph, work, target, opened, window.width)
            && more.rank() <= window.rank()
        {
            window = more;
            found += 1;
        }
    }
    window
}

// Earlier nodes all of whose factors are of a window's symbols, each once.
fn nodes_beside(graph: &Graph, work: &mut Work, target: &Target, window: &Window) -> Vec<u32> {
    let inside = symbols_inside(work, window);
    let mut nodes = Vec::new(work.alloc);
    for symbol in &first_symbols(work, window) {
        for user in graph.users(*symbol).iter().take(MOST_USERS) {
            if !nodes.contains(user) && is_beside(graph, target, window, &inside, *user) {
                work.push(&mut nodes, *user);
            }
        }
    }
    nodes
}

fn is_beside(graph: &Graph, target: &Target, window: &Window, inside: &[u32], node: u32) -> bool {
    let Some(sum) = graph.sum(node) else {
        return false;
    };
    let is_new = node != target.node && !window.opened.contains(&graph.symbol(node));
    let is_earlier = graph.node_place(node) < graph.node_place(target.node);
    let count = sum.products.len();
    let is_small = count <= MOST_PRODUCTS_BESIDE && sum.bits.len() <= MOST_BITS_BESIDE;
    is_new
        && is_earlier
        && count > 0
        && is_small
        && sum.products.iter().all(|product| {
            are_inside(&product.first, inside) && are_inside(&product.second, inside)
        })
}

fn are_inside(symbols: &[u32], inside: &[u32]) -> bool {
    symbols.iter().all(|symbol| has_symbol(inside, *symbol))
}

// All symbols of a window, falling.
fn symbols_inside(work: &mut Work, window: &Window) -> Vec<u32> {
    let mut inside = work.copy(&window.opened);
    for sum in &window.basis {
        work.append(&mut inside, sum);
    }
    work.sort_falling(&mut inside);
    inside.dedup();
    inside
}

// The opened nodes, and a few symbols of each sum.
fn first_symbols(work: &mut Work, window: &Window) -> Vec<u32> {
    let mut symbols = work.copy(&window.opened);
    for sum in &window.basis {
        for symbol in sum.iter().rev().take(4) {
            work.push(&mut symbols, *symbol);
        }
    }
    symbols
}
