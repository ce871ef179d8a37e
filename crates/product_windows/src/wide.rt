// Products that are a sum of what stays, in wide windows.
use plan_tools::Work;
use product_rows::{CONSTANT, Echelon};
use symbol_graphs::{Graph, Opened};
use symbol_windows::{Target, Width, Window};
use window_rewriting::{Gain, cost_of, gone_nodes};

// How many turns the rows of a wide window are gone through in.
const TURNS: u64 = 16;

/// Takes the products of a target out, where in all rows of a wide window they are a sum of what
/// stays, and the nodes that nothing else uses.
pub fn vanish(graph: &mut Graph, work: &mut Work, target: &Target, window: Window) -> Gain {
    let gone = gone_nodes(graph, work, target, &window, true);
    let turns = turns_of(graph, work, target, &window);
    let mut goal = Vec::new(work.alloc);
    for turn in &turns {
        work.push(&mut goal, turn.own);
    }
    let mut known = what_stays(work, &turns, &gone);
    let Some(symbols) = known.add(work, Vec::new(work.alloc), goal) else {
        return Gain::NONE;
    };
    let products = cost_of(graph, target, &gone);
    take_out(graph, work, target, window, &symbols);
    Gain {
        products,
        is_simpler: false,
    }
}

fn turns_of(graph: &Graph, work: &mut Work, target: &Target, window: &Window) -> Vec<Window> {
    let mut turns = Vec::new(work.alloc);
    for turn in 0..TURNS {
        let opened = work.copy(&window.opened);
        if let Some(next) = Window::of(graph, work, target, opened, Width::Wide(turn)) {
            work.push(&mut turns, next);
        }
    }
    turns
}

// The constant, the sums of a window, and the opened nodes that stay, in all turns.
fn what_stays(work: &mut Work, turns: &[Window], gone: &[u32]) -> Echelon {
    let mut known = Echelon::new(work.alloc);
    let Some(window) = turns.first() else {
        return known;
    };
    let ones = work.filled(u64::MAX, turns.len());
    let constant = work.copy(&[CONSTANT]);
    known.add(work, constant, ones);
    for (place, sum) in window.basis.iter().enumerate() {
        let mut values = Vec::new(work.alloc);
        for turn in turns {
            work.push(&mut values, turn.width.variable(place).unwrap_or(0));
        }
        let symbols = work.copy(sum);
        known.add(work, symbols, values);
    }
    for (place, node) in window.known.iter().enumerate() {
        if !node.is_linear && !gone.contains(&node.symbol) {
            let values = values_of(work, turns, place);
            let symbols = work.sum_of(&[node.symbol], &node.leaf);
            known.add(work, symbols, values);
        }
    }
    known
}

// The values of an opened node in all turns.
fn values_of(work: &mut Work, turns: &[Window], place: usize) -> Vec<u64> {
    let mut values = Vec::new(work.alloc);
    for turn in turns {
        if let Some(node) = turn.known.get(place) {
            work.push(&mut values, node.word);
        }
    }
    values
}

// Symbols take the place of the products of a target.
fn take_out(graph: &mut Graph, work: &mut Work, target: &Target, window: Window, symbols: &[u32]) {
    let Some(old) = graph.sum(target.node) else {
        return;
    };
    let mut sum = old.copy(work);
    for place in &target.own {
        if let Some(product) = old.products.get(*place) {
            let product = product.copy(work);
            sum.toggle(work, product);
        }
    }
    let mut bits = symbols;
    if let [CONSTANT, others @ ..] = symbols {
        sum.one = !sum.one;
        bits = others;
    }
    sum.add_bits(work, bits);
    let Window { opened, basis, .. } = window;
    let opened = Opened {
        symbols: opened,
        sums: basis,
    };
    graph.replace(work, target.node, sum, opened);
}
