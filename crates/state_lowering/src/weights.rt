// How many nodes are wanted for each symbol.
use plan_tools::{Table, Work, number};
use state_graphs::{Below, StateGraph};

/// How many nodes are looked for at once.
const AT_ONCE: usize = 64;

/// How many look-ups are a unit of work.
const PER_UNIT: usize = 8;

/// Of each symbol how many nodes are wanted for it: none for an input; for a node itself, and those
/// that are wanted for the nodes below it. In time quadratic in the nodes, 64 of them at once.
pub fn weights_of(work: &mut Work, graph: &StateGraph) -> Table<u32> {
    let inputs = graph.inputs as usize;
    let mut weights = Table::new(work, graph.symbols(), 0);
    let below = Below::of(work, graph);
    for first in (0..graph.nodes.len()).step_by(AT_ONCE) {
        let masks = masks_from(work, graph, &below, first);
        let from = inputs.saturating_add(first);
        add_counts(&masks, number(from), &mut weights);
        work.spend((masks.len() / PER_UNIT) as u64);
        if work.is_stopped() {
            break;
        }
    }
    weights
}

// Of each node from the first of these on a mask of those of them that are wanted for it.
fn masks_from(work: &mut Work, graph: &StateGraph, below: &Below, first: usize) -> Vec<u64> {
    let mut masks: Vec<u64> = Vec::new(work.alloc);
    for place in first..below.nodes() {
        let mask = own_mask(graph, place, first) | mask_below(below.list(place), &masks, first);
        work.push(&mut masks, mask);
    }
    masks
}

fn mask_below(below: &[u32], masks: &[u64], first: usize) -> u64 {
    let mut mask = 0;
    for place in below {
        mask |= mask_at(masks, *place as usize, first);
    }
    mask
}

fn own_mask(graph: &StateGraph, place: usize, first: usize) -> u64 {
    let bit = place.saturating_sub(first);
    match graph.nodes.get(place) {
        Some(node) if bit < AT_ONCE && !node.is_sum() => 1 << bit,
        _ => 0,
    }
}

fn mask_at(masks: &[u64], place: usize, first: usize) -> u64 {
    match place.checked_sub(first) {
        Some(at) if at < masks.len() => masks[at],
        _ => 0,
    }
}

fn add_counts(masks: &[u64], first: u32, weights: &mut Table<u32>) {
    let mut symbol = first;
    for mask in masks {
        weights.set(
            symbol,
            weights.get(symbol).saturating_add(mask.count_ones()),
        );
        symbol = symbol.saturating_add(1);
    }
}
