// Products that are none, and nodes that are sums of earlier ones.
use crate::rows::{Rows, give, mark, words_of};
use crate::spans::Spans;
use plan_tools::{Table, Work};
use symbol_graphs::{Graph, SymbolProduct, SymbolSum, order_of};

// The most inputs of a graph that is gone through by rows, and the most words of all its nodes.
const MOST_INPUTS: u32 = 16;

const MOST_WORDS: usize = 1 << 22;

// The words that the check of all changes makes, and the units of each.
const MOST_CHECKED: usize = 1 << 22;

const UNITS_A_WORD: usize = 10;

/// Takes out of a graph of at most sixteen inputs products that are sums of symbols in all rows,
/// and nodes that are sums of earlier ones.
pub fn drop_needless(graph: &mut Graph, work: &mut Work) {
    if graph.inputs == 0 || graph.inputs > MOST_INPUTS {
        return;
    }
    let order = order_of(graph, work);
    if order.len().saturating_mul(words_of(graph.inputs)) > MOST_WORDS {
        return;
    }
    let mut sums = new_sums(graph, work, &order);
    let mut checked: usize = 0;
    for _ in 0..sums.len() {
        if checked < MOST_CHECKED
            && let Some((node, sum)) = sums.pop()
        {
            checked = checked.saturating_add(give(graph, work, &order, node, sum));
        }
    }
    work.spend(checked.saturating_mul(UNITS_A_WORD) as u64);
}

// The sums of all nodes that are used then, from the outputs.
fn new_sums(graph: &Graph, work: &mut Work, order: &[u32]) -> Vec<(u32, SymbolSum)> {
    let rows = Rows::of(graph, work, order);
    let spans = Spans::of(graph, work, &rows, order);
    let mut is_used = Table::new(work, graph.symbol(graph.nodes()) as usize, false);
    for output in graph.outputs() {
        is_used.set(graph.symbol(output), true);
    }
    let mut sums = Vec::new(work.alloc);
    for node in order.iter().rev() {
        if is_used.get(graph.symbol(*node))
            && let Some(old) = graph.sum(*node)
        {
            let sum = new_sum(work, &rows, &spans, graph.symbol(*node), old);
            mark(work, &sum, &mut is_used);
            work.push(&mut sums, (*node, sum));
        }
    }
    sums
}

fn new_sum(work: &mut Work, rows: &Rows, spans: &Spans, symbol: u32, old: &SymbolSum) -> SymbolSum {
    let mut made = SymbolSum::zero(work.alloc);
    if let Some(sum) = spans.sum(symbol) {
        made.add_affine(work, sum);
        return made;
    }
    made.one = old.one;
    made.add_bits(work, &old.bits);
    for product in &old.products {
        add_product(work, rows, product, &mut made);
    }
    made
}

// Adds a product, or the sum that it is in all rows.
fn add_product(work: &mut Work, rows: &Rows, product: &SymbolProduct, sum: &mut SymbolSum) {
    let (first, second) = (&product.first, &product.second);
    let a = rows.of_bits(work, false, first);
    let b = rows.of_bits(work, false, second);
    let meetings = Meetings::of(&a, &b);
    work.spend(a.len() as u64 / 8);
    if meetings.both == 0 {
        return;
    }
    if meetings.first == 0 {
        sum.add_bits(work, first);
    } else if meetings.second == 0 {
        sum.add_bits(work, second);
    } else if meetings.none == 0 {
        sum.one = !sum.one;
        sum.add_bits(work, first);
        sum.add_bits(work, second);
    } else {
        let product = product.copy(work);
        sum.toggle(work, product);
    }
}

// The rows, of all words as one, in which both factors are 1, one alone, or none.
#[derive(Clone, Copy)]
struct Meetings {
    both: u64,
    first: u64,
    second: u64,
    none: u64,
}

impl Meetings {
    fn of(a: &[u64], b: &[u64]) -> Meetings {
        let mut meetings = Meetings {
            both: 0,
            first: 0,
            second: 0,
            none: 0,
        };
        for (a, b) in a.iter().zip(b) {
            meetings.both |= *a & *b;
            meetings.first |= *a & !*b;
            meetings.second |= !*a & *b;
            meetings.none |= !*a & !*b;
        }
        meetings
    }
}
