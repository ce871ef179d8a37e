// Products whose factors never meet, in graphs of any number of inputs. What samples of rows claim
// is put down to claims of earlier symbols, window by window, until windows alone tell.
use crate::claims::{Claim, Claims};
use graph_cleaning::{clean, drop_zeros};
use plan_tools::Work;
use product_rows::Rows;
use symbol_graphs::{Affine, Graph, Opened, SymbolSum, order_of};

// The most words of samples of all symbols, and the most and the fewest of one.
const MOST_WORDS: usize = 1 << 20;

const MOST_WORDS_EACH: usize = 64;

const FEWEST_WORDS: usize = 8;

// How often windows are looked for, each time behind more of those that would do, and the most
// units that are spent on it.
const TURNS: usize = 4;

const MOST_UNITS: u64 = 5_000_000;

/// Takes products out of a graph whose factors never meet in one of the four ways; whether there
/// were some.
pub fn drop_disjoint(graph: &mut Graph, work: &mut Work) -> bool {
    let order = order_of(graph, work);
    let symbols = graph.symbol(graph.nodes()) as usize;
    let words = (MOST_WORDS / symbols.max(1)).min(MOST_WORDS_EACH);
    if words < FEWEST_WORDS {
        return false;
    }
    let rows = Rows::sampled(graph, work, &order, words);
    let mut claims = Claims::new(work.alloc);
    for node in &order {
        claims.add_node(graph, work, &rows, *node);
    }
    let most_units = work.spent().saturating_add(MOST_UNITS);
    for skipped in 0..TURNS {
        claims.find_windows(graph, work, &rows, skipped, most_units);
        claims.settle(work);
    }
    if !claims.have_users() {
        return false;
    }
    take_out_all(graph, work, &claims);
    drop_zeros(graph, work);
    clean(graph, work);
    true
}

// Nodes of met claims take the place of products, and are made 0. While that is done with one, the
// nodes in its window, and those that it rests on, are as they were, so the last ones come first.
fn take_out_all(graph: &mut Graph, work: &mut Work, claims: &Claims) {
    for number in claims.rising(work).iter().rev() {
        if let Some(claim) = claims.all.get(*number as usize)
            && claim.is_met
        {
            take_out(graph, work, claim);
            vanish(graph, work, claims, claim);
        }
    }
}

fn take_out(graph: &mut Graph, work: &mut Work, claim: &Claim) {
    for user in &claim.users {
        graph.define(work, *user, claim.node);
    }
}

// The product `n` of a claim is the sum of `r1 = z1 n`, `r2 = z2 (n + r1)` and so on, where `z1`
// and `z2` are the products of the claims that it rests on.
fn vanish(graph: &mut Graph, work: &mut Work, claims: &Claims, claim: &Claim) {
    let Some(sum) = graph.sum(claim.node) else {
        return;
    };
    let mut change = sum.copy(work);
    let same = sum.copy(work);
    let mut parts = Parts {
        opened: claim.opened.copy(work),
        rest: Vec::new(work.alloc),
    };
    let mut left = claim.word;
    if left != 0 {
        parts.push(graph, work, claim.node, same);
    }
    for part in &claim.parts {
        if let Some(other) = claims.all.get(part.claim as usize)
            && other.is_met
            && left & part.word != 0
        {
            left &= !part.word;
            let symbol = parts.push_product(graph, work, claim.node, other.node);
            change.add_bits(work, &[symbol]);
        }
    }
    graph.change(work, claim.node, change, parts.opened);
}

// What is opened, and the nodes whose sum is left over of a product.
#[derive(Drop)]
struct Parts {
    opened: Opened,
    rest: Vec<u32>,
}

impl Parts {
    // A new node of what is left over; its symbol.
    fn push(&mut self, graph: &mut Graph, work: &mut Work, node: u32, sum: SymbolSum) -> u32 {
        let made = graph.push(work, sum, graph.key(node));
        let symbol = graph.symbol(made);
        self.opened.open(work, symbol);
        self.rest = work.sum_of(&self.rest, &[symbol]);
        symbol
    }

    // A new node: what is left over times another node.
    fn push_product(&mut self, graph: &mut Graph, work: &mut Work, node: u32, other: u32) -> u32 {
        let symbol = graph.symbol(other);
        self.opened.open(work, symbol);
        let first = Affine::symbol(work, symbol);
        let second = Affine {
            one: false,
            bits: work.copy(&self.rest),
        };
        let mut sum = SymbolSum::zero(work.alloc);
        sum.add_product(work, &first, &second);
        self.push(graph, work, node, sum)
    }
}
