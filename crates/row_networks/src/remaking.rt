// Two products of which all else takes one sum alone become one product, or none, where that sum is
// a product of two sums, and a sum beside it, by the values in all rows.
use crate::factors::{Valued, factors_of};
use crate::networks::{Network, Product};
use plan_tools::{Table, Work, number};
use product_rows::CONSTANT;
use symbol_graphs::Graph;

// The most inputs and products of a network, and the most symbols of a factor that is tried.
const MOST_INPUTS: u32 = 10;

const MOST_PRODUCTS: usize = 100;

const MOST_SYMBOLS: usize = 3;

// The most units that are spent on a network.
const MOST_UNITS: u64 = 10_000_000;

/// Makes the outputs of a graph of at most ten inputs and a hundred products from fewer products,
/// by their values in all rows; whether it did.
pub fn by_network(graph: &mut Graph, work: &mut Work) -> bool {
    if graph.inputs == 0 || graph.inputs > MOST_INPUTS || graph.count() > MOST_PRODUCTS {
        return false;
    }
    let mut network = Network::of(graph, work);
    let begun = network.products.len();
    let most_units = work.spent().saturating_add(MOST_UNITS);
    for _ in 0..begun {
        if !network.shorten(work, most_units, MOST_SYMBOLS - 1)
            && !network.shorten(work, most_units, MOST_SYMBOLS)
        {
            break;
        }
    }
    if network.products.len() >= begun {
        return false;
    }
    network.give_back(graph, work);
    true
}

// Two products, or one twice, and what rests on them.
#[derive(Drop)]
struct Pair {
    symbols: [u32; 2],
    rests: Table<bool>,
}

impl Network {
    // Makes two products anew as one, or one as none; whether there are such.
    fn shorten(&mut self, work: &mut Work, most_units: u64, most_symbols: usize) -> bool {
        for second in 0..self.products.len() {
            for first in 0..=second {
                let symbols = [self.symbol(first), self.symbol(second)];
                if work.spent() < most_units && self.remake(work, symbols, most_symbols) {
                    return true;
                }
            }
        }
        false
    }

    fn remake(&mut self, work: &mut Work, symbols: [u32; 2], most_symbols: usize) -> bool {
        let Some(wanted) = self.wanted_sum(work, symbols) else {
            return false;
        };
        let pair = self.pair(work, symbols);
        let goal = self.values_of(work, &wanted);
        let known = self.known_values(work, &pair);
        let most_symbols = if symbols[0] == symbols[1] {
            0
        } else {
            most_symbols
        };
        let Some(found) = factors_of(work, &known, &goal, most_symbols) else {
            return false;
        };
        let mut change = work.sum_of(&wanted, &found.rest);
        let made = self.symbol(self.products.len());
        if !found.first.is_empty() {
            let (first, second) = (work.copy(&found.first), work.copy(&found.second));
            self.push(work, first, second);
            change = work.sum_of(&change, &[made]);
        }
        self.exchange(work, &pair, &change, made);
        self.sort(work, &pair, made);
        true
    }

    // The only sum of two products that is taken; none where several are.
    fn wanted_sum(&self, work: &mut Work, symbols: [u32; 2]) -> Option<Vec<u32>> {
        let mut wanted = Wanted {
            symbols,
            parts: 0,
            is_one: true,
        };
        for (place, product) in self.products.iter().enumerate() {
            if !symbols.contains(&self.symbol(place)) {
                wanted.note(&product.first);
                wanted.note(&product.second);
            }
        }
        for output in &self.outputs {
            wanted.note(output);
        }
        if wanted.is_one {
            Some(wanted.sum(work))
        } else {
            None
        }
    }

    fn pair(&self, work: &mut Work, symbols: [u32; 2]) -> Pair {
        let count = self.symbol(self.products.len()) as usize;
        let mut rests = Table::new(work, count, false);
        for (place, product) in self.products.iter().enumerate() {
            let symbol = self.symbol(place);
            let is_on = symbols.contains(&symbol)
                || rest_on(&rests, &product.first)
                || rest_on(&rests, &product.second);
            rests.set(symbol, is_on);
        }
        Pair { symbols, rests }
    }

    // The constant, and what does not rest on a pair.
    fn known_values(&self, work: &mut Work, pair: &Pair) -> Vec<Valued> {
        let mut known = Vec::new(work.alloc);
        let constant = Valued {
            symbol: CONSTANT,
            values: self.values_of(work, &[CONSTANT]),
        };
        work.push(&mut known, constant);
        for symbol in 0..self.symbol(self.products.len()) {
            if !pair.rests.get(symbol) {
                let valued = Valued {
                    symbol,
                    values: self.values_of(work, &[symbol]),
                };
                work.push(&mut known, valued);
            }
        }
        known
    }

    // Adds a sum that vanishes wherever one of a pair is taken, but in a new product.
    fn exchange(&mut self, work: &mut Work, pair: &Pair, change: &[u32], made: u32) {
        let first = self.inputs;
        for (place, product) in self.products.iter_mut().enumerate() {
            if first.saturating_add(number(place)) != made {
                pair.exchange(work, change, &mut product.first);
                pair.exchange(work, change, &mut product.second);
            }
        }
        for output in self.outputs.iter_mut() {
            pair.exchange(work, change, output);
        }
    }
}

fn rest_on(rests: &Table<bool>, sum: &[u32]) -> bool {
    for symbol in sum {
        if rests.get(*symbol) {
            return true;
        }
    }
    false
}

impl Pair {
    fn exchange(&self, work: &mut Work, change: &[u32], sum: &mut Vec<u32>) {
        if sum.contains(&self.symbols[0]) || sum.contains(&self.symbols[1]) {
            *sum = work.sum_of(sum, change);
        }
    }
}

// Which of two products are taken together, a bit for each, and whether these are the same in all
// sums that have one of both.
#[derive(Clone, Copy)]
struct Wanted {
    symbols: [u32; 2],
    parts: u32,
    is_one: bool,
}

impl Wanted {
    fn note(&mut self, sum: &[u32]) {
        let has_first = sum.contains(&self.symbols[0]);
        let has_second = sum.contains(&self.symbols[1]) && self.symbols[0] != self.symbols[1];
        let parts = u32::from(has_first) | u32::from(has_second) << 1;
        if parts != 0 {
            self.is_one = self.is_one && (self.parts == 0 || self.parts == parts);
            self.parts = parts;
        }
    }

    fn sum(self, work: &mut Work) -> Vec<u32> {
        let mut sum = Vec::new(work.alloc);
        for (place, symbol) in self.symbols.iter().enumerate() {
            if self.parts >> place & 1 == 1 {
                sum = work.sum_of(&sum, &[*symbol]);
            }
        }
        sum
    }
}

// ---- order

impl Network {
    // Puts what does not rest on a pair first, then a new product, then all else but the pair; and
    // leaves out what is not used.
    fn sort(&mut self, work: &mut Work, pair: &Pair, made: u32) {
        let mut order = Vec::new(work.alloc);
        self.push_part(work, pair, false, made, &mut order);
        if self.product(made).is_some() {
            work.push(&mut order, made);
        }
        self.push_part(work, pair, true, made, &mut order);
        self.renumber(work, &order);
        let used = self.used_symbols(work);
        self.renumber(work, &used);
    }

    // Appends what rests on a pair, or does not, but for the pair and a new product.
    fn push_part(
        &self,
        work: &mut Work,
        pair: &Pair,
        rests: bool,
        made: u32,
        order: &mut Vec<u32>,
    ) {
        for place in 0..self.products.len() {
            let symbol = self.symbol(place);
            let is_new = symbol == made || pair.symbols.contains(&symbol);
            if !is_new && pair.rests.get(symbol) == rests {
                work.push(order, symbol);
            }
        }
    }

    // The products that outputs rest on.
    fn used_symbols(&self, work: &mut Work) -> Vec<u32> {
        let mut is_used = Table::new(work, self.symbol(self.products.len()) as usize, false);
        for output in &self.outputs {
            mark(&mut is_used, output);
        }
        let mut used = Vec::new(work.alloc);
        for place in (0..self.products.len()).rev() {
            let symbol = self.symbol(place);
            if is_used.get(symbol)
                && let Some(product) = self.products.get(place)
            {
                mark(&mut is_used, &product.first);
                mark(&mut is_used, &product.second);
                work.push(&mut used, symbol);
            }
        }
        used.reverse();
        used
    }

    // Leaves these products, in this order.
    fn renumber(&mut self, work: &mut Work, order: &[u32]) {
        let mut names = Table::new(work, self.symbol(self.products.len()) as usize, CONSTANT);
        for input in 0..self.inputs {
            names.set(input, input);
        }
        for (place, symbol) in order.iter().enumerate() {
            names.set(*symbol, self.symbol(place));
        }
        self.products = self.products_in(work, order, &names);
        for output in self.outputs.iter_mut() {
            *output = with_names(work, output, &names);
        }
    }

    fn products_in(&self, work: &mut Work, order: &[u32], names: &Table<u32>) -> Vec<Product> {
        let mut products = Vec::new(work.alloc);
        for symbol in order {
            if let Some(product) = self.product(*symbol) {
                let product = Product {
                    first: with_names(work, &product.first, names),
                    second: with_names(work, &product.second, names),
                    values: work.copy(&product.values),
                };
                work.push(&mut products, product);
            }
        }
        products
    }
}

fn mark(marks: &mut Table<bool>, sum: &[u32]) {
    for symbol in sum {
        marks.set(*symbol, true);
    }
}

// A sum with other symbols; the constant has none.
fn with_names(work: &mut Work, sum: &[u32], names: &Table<u32>) -> Vec<u32> {
    let mut made = Vec::new(work.alloc);
    for symbol in sum {
        work.push(&mut made, names.get(*symbol));
    }
    work.sort_falling(&mut made);
    made
}
