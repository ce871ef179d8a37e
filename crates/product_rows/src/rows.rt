// The values of all symbols in all rows of a few inputs.
use plan_tools::{Table, Work, list_at, number, put};
use symbol_graphs::{Graph, Opened, SymbolSum};
use window_programs::VARIABLES;

/// The values of symbols in all rows of the inputs, 64 in a word.
#[derive(Drop)]
pub struct Rows {
    words: usize,
    values: Vec<Vec<u64>>,
}

impl Rows {
    /// Those of a graph of at most sixteen inputs, whose nodes stand in an order.
    pub fn of(graph: &Graph, work: &mut Work, order: &[u32]) -> Rows {
        let symbols = graph.symbol(graph.nodes()) as usize;
        let mut rows = Rows {
            words: words_of(graph.inputs),
            values: work.lists(symbols),
        };
        for input in 0..graph.inputs {
            let values = rows.of_input(work, input);
            put(&mut rows.values, input, values);
        }
        rows.fill(graph, work, order);
        rows
    }

    // The values of nodes.
    fn fill(&mut self, graph: &Graph, work: &mut Work, order: &[u32]) {
        for node in order {
            if let Some(sum) = graph.sum(*node) {
                let values = self.of_sum(work, sum);
                put(&mut self.values, graph.symbol(*node), values);
            }
        }
    }

    /// Those of a graph of any number of inputs in so many words of rows that look like chance.
    pub fn sampled(graph: &Graph, work: &mut Work, order: &[u32], words: usize) -> Rows {
        let symbols = graph.symbol(graph.nodes()) as usize;
        let mut rows = Rows {
            words,
            values: work.lists(symbols),
        };
        let mut mark: u64 = 0x9e37_79b9_7f4a_7c15;
        for input in 0..graph.inputs {
            let values = words_behind(work, &mut mark, words);
            put(&mut rows.values, input, values);
        }
        rows.fill(graph, work, order);
        rows
    }

    fn of_input(&self, work: &mut Work, input: u32) -> Vec<u64> {
        if let Some(variable) = VARIABLES.get(input as usize) {
            return work.filled(*variable, self.words);
        }
        let place = input.saturating_sub(6).min(63);
        let mut values = Vec::new(work.alloc);
        for word in 0..self.words {
            work.push(&mut values, ones(word >> place & 1 == 1));
        }
        values
    }

    fn of_sum(&self, work: &mut Work, sum: &SymbolSum) -> Vec<u64> {
        let mut values = self.of_bits(work, sum.one, &sum.bits);
        for product in &sum.products {
            let first = self.of_bits(work, false, &product.first);
            let second = self.of_bits(work, false, &product.second);
            add_product(&mut values, &first, &second);
        }
        work.spend(self.words as u64 / 4);
        values
    }

    /// The constant 1.
    pub fn all(&self, work: &mut Work) -> Vec<u64> {
        work.filled(u64::MAX, self.words)
    }

    /// The values of a symbol.
    pub fn values(&self, symbol: u32) -> &[u64] {
        list_at(&self.values, symbol)
    }

    /// The values of a sum of symbols.
    pub fn of_bits(&self, work: &mut Work, one: bool, bits: &[u32]) -> Vec<u64> {
        let mut values = work.filled(ones(one), self.words);
        for symbol in bits {
            add(&mut values, self.values(*symbol));
        }
        values
    }
}

/// How many words the rows of so many inputs are.
pub fn words_of(inputs: u32) -> usize {
    1 << inputs.saturating_sub(6).min(32)
}

// The words behind one in a sequence that looks like chance.
fn words_behind(work: &mut Work, mark: &mut u64, count: usize) -> Vec<u64> {
    let mut words = Vec::new(work.alloc);
    for _ in 0..count {
        *mark ^= *mark << 13;
        *mark ^= *mark >> 7;
        *mark ^= *mark << 17;
        work.push(&mut words, *mark);
    }
    words
}

fn ones(bit: bool) -> u64 {
    if bit { u64::MAX } else { 0 }
}

/// Adds values to others.
pub fn add(to: &mut [u64], values: &[u64]) {
    for (word, value) in to.iter_mut().zip(values) {
        *word ^= *value;
    }
}

fn add_product(to: &mut [u64], first: &[u64], second: &[u64]) {
    for (place, word) in to.iter_mut().enumerate() {
        if let Some(a) = first.get(place)
            && let Some(b) = second.get(place)
        {
            *word ^= *a & *b;
        }
    }
}

/// Gives a node another sum of the same values, which is found down to the inputs; how many words
/// the check of that makes.
pub fn give(graph: &mut Graph, work: &mut Work, order: &[u32], node: u32, sum: SymbolSum) -> usize {
    let mut change = sum;
    if let Some(old) = graph.sum(node) {
        change.add(work, old);
    }
    if change.is_zero() {
        return 0;
    }
    let opened = opened_below(graph, work, order, &change);
    let words = words_of(number(opened.sums.len()));
    let count = opened.symbols.len().saturating_mul(words);
    graph.change(work, node, change, opened);
    count
}

// All nodes that a sum rests on, and the inputs.
fn opened_below(graph: &Graph, work: &mut Work, order: &[u32], sum: &SymbolSum) -> Opened {
    let mut is_below = Table::new(work, graph.symbol(graph.nodes()) as usize, false);
    mark(work, sum, &mut is_below);
    let mut opened = Opened::new(work.alloc);
    for node in order.iter().rev() {
        let symbol = graph.symbol(*node);
        if is_below.get(symbol)
            && let Some(sum) = graph.sum(*node)
        {
            mark(work, sum, &mut is_below);
            work.push(&mut opened.symbols, symbol);
        }
    }
    opened.symbols.reverse();
    for input in 0..graph.inputs {
        if is_below.get(input) {
            opened.add_sum(work, &[input]);
        }
    }
    opened
}

/// Marks the symbols of a sum.
pub fn mark(work: &mut Work, sum: &SymbolSum, marks: &mut Table<bool>) {
    for symbol in &sum.symbols(work) {
        marks.set(*symbol, true);
    }
}
