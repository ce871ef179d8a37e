// A graph of few inputs by a table of its outputs: products of monomials of some inputs and of sums
// of monomials of the others.
use crate::rows::{Rows, give};
use plan_tools::{Table, Work};
use symbol_graphs::{Affine, Graph, SymbolSum, order_of};
use window_programs::VARIABLES;

// The most inputs of a graph that is made from its table.
const MOST_INPUTS: u32 = 8;

/// Gives the outputs of a graph of at most eight inputs sums that are made from their values;
/// whether it did.
pub fn by_table(graph: &mut Graph, work: &mut Work) -> bool {
    if graph.inputs < 3 || graph.inputs > MOST_INPUTS {
        return false;
    }
    let mut order = order_of(graph, work);
    let table = Outputs::of(graph, work, &order);
    let split = table.best_split(work);
    let monomials = table.make_monomials(graph, work, split, &mut order);
    for (output, own) in graph.outputs().zip(&table.monomials) {
        let sum = sum_of(work, own, split, &monomials);
        give(graph, work, &order, output, sum);
    }
    true
}

// The monomials of each output. A monomial is a number with a bit for each of its inputs.
#[derive(Drop)]
struct Outputs {
    inputs: u32,
    monomials: Vec<Vec<u32>>,
}

impl Outputs {
    fn of(graph: &Graph, work: &mut Work, order: &[u32]) -> Outputs {
        let rows = Rows::of(graph, work, order);
        let mut outputs = Outputs {
            inputs: graph.inputs,
            monomials: Vec::new(work.alloc),
        };
        for output in graph.outputs() {
            let mut values = work.copy(rows.values(graph.symbol(output)));
            transform(&mut values);
            let monomials = monomials_in(work, &values, outputs.count());
            work.push(&mut outputs.monomials, monomials);
        }
        outputs
    }

    // How many monomials there are.
    fn count(&self) -> u32 {
        1 << self.inputs.min(MOST_INPUTS)
    }

    // The inputs of which all monomials are made, so that there are the fewest products.
    fn best_split(&self, work: &mut Work) -> u32 {
        let mut least = usize::MAX;
        let mut best = 0;
        for split in 0..self.count() {
            if split.count_ones() > self.inputs / 2 {
                continue;
            }
            let products = self.needs(work, split).products;
            if products < least {
                least = products;
                best = split;
            }
        }
        best
    }

    // What a split needs.
    fn needs(&self, work: &mut Work, split: u32) -> Needs {
        let mut needs = Needs {
            is_needed: Table::new(work, self.count() as usize, false),
            products: 0,
        };
        for own in &self.monomials {
            needs.add_output(work, own, split);
        }
        needs.close(self.count());
        needs
    }

    // Makes nodes of the monomials that a split needs, in front of the order; the symbol of each.
    fn make_monomials(
        &self,
        graph: &mut Graph,
        work: &mut Work,
        split: u32,
        order: &mut Vec<u32>,
    ) -> Table<u32> {
        let needs = self.needs(work, split);
        let mut symbols = Table::new(work, self.count() as usize, 0);
        let mut made = Vec::new(work.alloc);
        for monomial in 1..self.count() {
            let last = last_input(monomial);
            let rest = rest_of(monomial);
            if rest == 0 {
                symbols.set(monomial, last);
            } else if needs.is_needed.get(monomial) {
                let node = product_node(graph, work, symbols.get(rest), last);
                work.push(&mut made, node);
                symbols.set(monomial, graph.symbol(node));
            }
        }
        work.append(&mut made, order);
        *order = made;
        symbols
    }
}

// The monomials that are needed, and how many products there are then.
#[derive(Drop)]
struct Needs {
    is_needed: Table<bool>,
    products: usize,
}

impl Needs {
    fn add_output(&mut self, work: &mut Work, monomials: &[u32], split: u32) {
        let mut is_factor = Table::new(work, self.is_needed.items().len(), false);
        for monomial in monomials {
            let (own, other) = (monomial & split, monomial & !split);
            self.is_needed.set(own, true);
            self.is_needed.set(other, true);
            if own != 0 && other != 0 && !is_factor.get(own) {
                is_factor.set(own, true);
                self.products = self.products.saturating_add(1);
            }
        }
        work.spend(monomials.len() as u64 / 16);
    }

    // Each monomial is that of its inputs but the last one times this one.
    fn close(&mut self, count: u32) {
        for monomial in (1..count).rev() {
            let rest = rest_of(monomial);
            if rest != 0 && self.is_needed.get(monomial) {
                self.is_needed.set(rest, true);
                self.products = self.products.saturating_add(1);
            }
        }
    }
}

// The last input of a monomial.
fn last_input(monomial: u32) -> u32 {
    31_u32.saturating_sub(monomial.leading_zeros())
}

// A monomial without its last input.
fn rest_of(monomial: u32) -> u32 {
    monomial & !(1 << last_input(monomial).min(31))
}

// Rows to monomials: each input in turn.
fn transform(values: &mut [u64]) {
    for (place, variable) in VARIABLES.iter().enumerate() {
        for word in values.iter_mut() {
            *word ^= (*word & !*variable) << (1 << place);
        }
    }
    for step in [1, 2] {
        for word in 0..values.len() {
            if word & step != 0 {
                let below = values.get(word ^ step).copied().unwrap_or(0);
                values[word] ^= below;
            }
        }
    }
}

fn monomials_in(work: &mut Work, values: &[u64], count: u32) -> Vec<u32> {
    let mut monomials = Vec::new(work.alloc);
    for monomial in 0..count {
        let word = values.get(monomial as usize / 64).copied().unwrap_or(0);
        if word >> (monomial % 64) & 1 == 1 {
            work.push(&mut monomials, monomial);
        }
    }
    monomials
}

fn product_node(graph: &mut Graph, work: &mut Work, a: u32, b: u32) -> u32 {
    let mut sum = SymbolSum::zero(work.alloc);
    let (first, second) = (Affine::symbol(work, a), Affine::symbol(work, b));
    sum.add_product(work, &first, &second);
    graph.push(work, sum, 0)
}

// The sum of some monomials: those of the split times sums of others.
fn sum_of(work: &mut Work, monomials: &[u32], split: u32, symbols: &Table<u32>) -> SymbolSum {
    let mut sum = SymbolSum::zero(work.alloc);
    for own in 0..=split {
        if own & !split != 0 {
            continue;
        }
        let beside = sum_beside(work, monomials, split, own, symbols);
        if own == 0 {
            sum.add_affine(work, &beside);
        } else {
            let factor = Affine::symbol(work, symbols.get(own));
            sum.add_product(work, &factor, &beside);
        }
    }
    sum
}

// The sum of what stands beside a monomial of the split.
fn sum_beside(
    work: &mut Work,
    monomials: &[u32],
    split: u32,
    own: u32,
    symbols: &Table<u32>,
) -> Affine {
    let mut beside = Affine::zero(work.alloc);
    for monomial in monomials {
        let other = monomial & !split;
        if monomial & split != own {
            continue;
        }
        if other == 0 {
            beside.one = !beside.one;
        } else {
            beside.bits = work.sum_of(&beside.bits, &[symbols.get(other)]);
        }
    }
    beside
}
