// Claims that two sums never meet, by samples of rows, and windows that put one down to others.
use plan_tools::{Work, number};
use product_rows::Rows;
use std::alloc::Global;
use std::collections::BTreeMap;
use symbol_graphs::{Affine, Graph, Opened, SymbolProduct, SymbolSum};
use symbol_windows::{Target, Width, Window, best_grown};

// The most claims, the most nodes that are opened for one, and the most claims that it rests on.
const MOST_CLAIMS: usize = 2_000;

const MOST_OPENED: usize = 8;

const MOST_PARTS: usize = 12;

// A sum that is 1 in fewer rows of a word than this is 1 too seldom to tell anything.
const SELDOM: usize = 4;

// The ways in which one sum, the other or both are negated.
const NEGATIONS: [(bool, bool); 4] = [(false, false), (true, false), (false, true), (true, true)];

/// A claim that two sums never meet.
#[derive(Drop)]
pub struct Claim {
    /// The node that is their product, and where their last symbol stands.
    pub node: u32,
    pub place: u64,
    /// The nodes that have the product, each as often as it has it.
    pub users: Vec<u32>,
    /// A window, the rows of it in which they meet, and what says that these do not occur.
    pub opened: Opened,
    pub word: u64,
    pub parts: Vec<Part>,
    pub is_met: bool,
}

/// A claim that another one rests on, and in which rows of its window the sums of this one meet.
#[derive(Clone, Copy)]
pub struct Part {
    pub claim: u32,
    pub word: u64,
}

/// Claims, and their numbers by the marks of the products.
#[derive(Drop)]
pub struct Claims {
    pub all: Vec<Claim>,
    known: BTreeMap<u64, u32>,
}

// ---- claims

impl Claims {
    /// No claims.
    pub fn new(alloc: Global) -> Claims {
        Claims {
            all: Vec::new(alloc),
            known: BTreeMap::new(alloc),
        }
    }

    /// The claims of a node's products that vanish in samples of rows, in one of the four ways.
    pub fn add_node(&mut self, graph: &mut Graph, work: &mut Work, rows: &Rows, node: u32) {
        let mut products = Vec::new(work.alloc);
        for product in graph.products(node) {
            let product = product.copy(work);
            work.push(&mut products, product);
        }
        for product in &products {
            if let Some(claim) = self.of_product(graph, work, rows, node, product)
                && let Some(claim) = self.all.get_mut(claim as usize)
            {
                work.push(&mut claim.users, node);
            }
        }
    }

    fn of_product(
        &mut self,
        graph: &mut Graph,
        work: &mut Work,
        rows: &Rows,
        node: u32,
        product: &SymbolProduct,
    ) -> Option<u32> {
        let first = rows.of_bits(work, false, &product.first);
        let second = rows.of_bits(work, false, &product.second);
        for (c, d) in NEGATIONS {
            if !may_meet(&first, &second, c, d) {
                let a = affine(work, c, &product.first);
                let b = affine(work, d, &product.second);
                return self.claim(graph, work, node, &a, &b);
            }
        }
        None
    }

    // The claim of two sums, whose product is a node before another one.
    fn claim(
        &mut self,
        graph: &mut Graph,
        work: &mut Work,
        before: u32,
        a: &Affine,
        b: &Affine,
    ) -> Option<u32> {
        let mut sum = SymbolSum::zero(work.alloc);
        sum.add_product(work, a, b);
        let mark = sum.mark() ^ u64::from(sum.one);
        if let Some(claim) = self.known.get(&mark) {
            return Some(*claim);
        }
        if sum.products.is_empty() || self.all.len() >= MOST_CLAIMS {
            return None;
        }
        let place = last_place(graph, work, &sum);
        let symbol = graph.push_before(work, sum, before);
        let claim = Claim {
            node: graph.node(symbol)?,
            place,
            users: Vec::new(work.alloc),
            opened: Opened::new(work.alloc),
            word: u64::MAX,
            parts: Vec::new(work.alloc),
            is_met: false,
        };
        let number = number(self.all.len());
        work.push(&mut self.all, claim);
        work.note(self.known.insert(mark, number));
        Some(number)
    }
}

fn affine(work: &mut Work, one: bool, bits: &[u32]) -> Affine {
    Affine {
        one,
        bits: work.copy(bits),
    }
}

fn last_place(graph: &Graph, work: &mut Work, sum: &SymbolSum) -> u64 {
    let mut last = 0;
    for symbol in &sum.symbols(work) {
        last = graph.place(*symbol).max(last);
    }
    last
}

// ---- what claims rest on

impl Claims {
    /// Finds windows of claims that are not met, and so further claims: of the windows that would
    /// do, the one behind so many. No more than so many units are spent.
    pub fn find_windows(
        &mut self,
        graph: &mut Graph,
        work: &mut Work,
        rows: &Rows,
        skipped: usize,
        most_units: u64,
    ) {
        for number in 0..MOST_CLAIMS {
            let Some(claim) = self.all.get(number) else {
                return;
            };
            if work.spent() > most_units {
                return;
            }
            if !claim.is_met
                && let Some(found) = found_window(graph, work, rows, claim, skipped)
            {
                self.take(graph, work, number, found);
            }
        }
    }

    fn take(&mut self, graph: &mut Graph, work: &mut Work, number: usize, found: Found) {
        let Some(claim) = self.all.get(number) else {
            return;
        };
        let node = claim.node;
        let mut parts = Vec::new(work.alloc);
        for pair in &found.pairs {
            if let Some(claim) = self.claim(graph, work, node, &pair.first, &pair.second) {
                let part = Part {
                    claim,
                    word: pair.word,
                };
                work.push(&mut parts, part);
            }
        }
        if let Some(claim) = self.all.get_mut(number) {
            claim.opened = found.opened;
            claim.word = found.word;
            claim.parts = parts;
        }
    }

    /// Meets the claims that rest on met ones.
    pub fn settle(&mut self, work: &mut Work) {
        let mut order = self.rising(work);
        order.reverse();
        for _ in 0..order.len() {
            if let Some(number) = order.pop()
                && self.rests_on_met(number)
                && let Some(claim) = self.all.get_mut(number as usize)
            {
                claim.is_met = true;
            }
        }
    }

    /// All claims, those of the earliest symbols first.
    pub fn rising(&self, work: &mut Work) -> Vec<u32> {
        let mut places = Vec::new(work.alloc);
        for (place, claim) in self.all.iter().enumerate() {
            work.push(&mut places, (claim.place, number(place)));
        }
        work.note(places.sort());
        let mut order = Vec::new(work.alloc);
        for (_, number) in &places {
            work.push(&mut order, *number);
        }
        order
    }

    fn rests_on_met(&self, number: u32) -> bool {
        let Some(claim) = self.all.get(number as usize) else {
            return false;
        };
        let mut left = claim.word;
        for part in &claim.parts {
            if self.is_met(part.claim) {
                left &= !part.word;
            }
        }
        left == 0
    }

    /// Whether products are met claims.
    pub fn have_users(&self) -> bool {
        self.all
            .iter()
            .any(|claim| claim.is_met && !claim.users.is_empty())
    }

    /// Whether a claim is met.
    pub fn is_met(&self, number: u32) -> bool {
        self.all
            .get(number as usize)
            .is_some_and(|claim| claim.is_met)
    }
}

// A window in whose rows the sums of a claim meet only where those of some pairs do.
#[derive(Drop)]
struct Found {
    opened: Opened,
    word: u64,
    pairs: Vec<Pair>,
}

fn found_window(
    graph: &Graph,
    work: &mut Work,
    rows: &Rows,
    claim: &Claim,
    skipped: usize,
) -> Option<Found> {
    let symbol = graph.symbol(claim.node);
    let target = Target {
        node: claim.node,
        own: Vec::new(work.alloc),
    };
    let opened = work.copy(&[symbol]);
    let mut window = Window::of(graph, work, &target, opened, Width::Narrow)?;
    let mut left = skipped;
    for _ in 0..MOST_OPENED {
        if let Some(word) = word_in(work, &window, symbol) {
            let pairs = pairs_in(graph, work, rows, &window, claim.place, word);
            if is_covered(word, &pairs) {
                if left == 0 || word == 0 {
                    let opened = below(work, window, symbol);
                    return Some(Found {
                        opened,
                        word,
                        pairs,
                    });
                }
                left -= 1;
            }
        }
        window = best_grown(graph, work, &target, &window)?;
    }
    None
}

// The rows of a window in which a node is 1; none where the window does not tell.
fn word_in(work: &mut Work, window: &Window, symbol: u32) -> Option<u64> {
    let known = window.known(symbol)?;
    let word = window.word_over_basis(work, &known.leaf)?;
    Some(word ^ known.word)
}

// A window without a symbol.
fn below(work: &mut Work, window: Window, without: u32) -> Opened {
    let Window { opened, basis, .. } = window;
    let mut symbols = Vec::new(work.alloc);
    for symbol in &opened {
        if *symbol != without {
            work.push(&mut symbols, *symbol);
        }
    }
    Opened {
        symbols,
        sums: basis,
    }
}

// ---- pairs of sums

// Two sums that seem never to meet, and in which rows of a window they do.
#[derive(Drop)]
struct Pair {
    first: Affine,
    second: Affine,
    word: u64,
}

fn is_covered(word: u64, pairs: &[Pair]) -> bool {
    let mut left = word;
    for pair in pairs {
        left &= !pair.word;
    }
    left == 0
}

// The sums of a window that seem never to meet, where that matters; of symbols before a place.
fn pairs_in(
    graph: &Graph,
    work: &mut Work,
    rows: &Rows,
    window: &Window,
    before: u64,
    word: u64,
) -> Vec<Pair> {
    let mut pairs = Vec::new(work.alloc);
    if word == 0 {
        return pairs;
    }
    for (i, first) in window.basis.iter().enumerate() {
        for (j, second) in window.basis.iter().take(i).enumerate() {
            if is_before(graph, first, before) && is_before(graph, second, before) {
                let words = (variable(window, i), variable(window, j));
                push_pairs(work, rows, (first, second), words, word, &mut pairs);
            }
        }
    }
    pairs
}

fn is_before(graph: &Graph, symbols: &[u32], place: u64) -> bool {
    symbols.iter().all(|symbol| graph.place(*symbol) < place)
}

fn variable(window: &Window, place: usize) -> u64 {
    window.width.variable(place).unwrap_or(0)
}

// Appends the ways in which two sums, which are these words of a window, seem never to meet.
fn push_pairs(
    work: &mut Work,
    rows: &Rows,
    sums: (&[u32], &[u32]),
    words: (u64, u64),
    word: u64,
    pairs: &mut Vec<Pair>,
) {
    let a = rows.of_bits(work, false, sums.0);
    let b = rows.of_bits(work, false, sums.1);
    work.spend(a.len() as u64 / 4);
    for (c, d) in NEGATIONS {
        let both = (words.0 ^ ones(c)) & (words.1 ^ ones(d));
        if word & both != 0 && pairs.len() < MOST_PARTS && !may_meet(&a, &b, c, d) {
            let pair = Pair {
                first: affine(work, c, sums.0),
                second: affine(work, d, sums.1),
                word: both,
            };
            work.push(pairs, pair);
        }
    }
}

// Whether values, negated or not, are both 1 in some row, or are so too seldom to tell.
fn may_meet(a: &[u64], b: &[u64], not_a: bool, not_b: bool) -> bool {
    let (x, y) = (ones(not_a), ones(not_b));
    let mut met = 0;
    for (a, b) in a.iter().zip(b) {
        met |= (*a ^ x) & (*b ^ y);
    }
    met != 0 || are_seldom(a, x) && are_seldom(b, y)
}

fn are_seldom(values: &[u64], turned: u64) -> bool {
    let mut count: usize = 0;
    for word in values {
        count = count.saturating_add((*word ^ turned).count_ones() as usize);
    }
    count < values.len().saturating_mul(SELDOM)
}

fn ones(bit: bool) -> u64 {
    if bit { u64::MAX } else { 0 }
}
