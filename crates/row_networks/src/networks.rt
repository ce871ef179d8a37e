// Graphs of few inputs as networks of products, each of two sums of inputs and of products before
// it; and what comes of one as sums of the graph's outputs.
use crate::factors::product_of;
use plan_tools::{Work, list_at, number, put};
use product_rows::{CONSTANT, Rows, add, give};
use symbol_graphs::{Affine, Graph, SymbolSum, order_of};

/// A product of two sums, with its values in all rows. The products of a network are symbols behind
/// its inputs, and sums falling lists of these and of the constant.
#[derive(Drop)]
pub struct Product {
    pub first: Vec<u32>,
    pub second: Vec<u32>,
    pub values: Vec<u64>,
}

/// Products, and outputs that are sums of them.
#[derive(Drop)]
pub struct Network {
    pub inputs: u32,
    pub products: Vec<Product>,
    pub outputs: Vec<Vec<u32>>,
    rows: Rows,
}

// ---- from a graph

impl Network {
    /// That of a graph of at most sixteen inputs.
    pub fn of(graph: &Graph, work: &mut Work) -> Network {
        let mut network = Network {
            inputs: graph.inputs,
            products: Vec::new(work.alloc),
            outputs: Vec::new(work.alloc),
            rows: Rows::of(graph, work, &[]),
        };
        let sums = network.sums_of(graph, work);
        for output in graph.outputs() {
            let sum = work.copy(list_at(&sums, graph.symbol(output)));
            work.push(&mut network.outputs, sum);
        }
        network
    }

    // What the symbols of a graph are sums of.
    fn sums_of(&mut self, graph: &Graph, work: &mut Work) -> Vec<Vec<u32>> {
        let mut sums = work.lists(graph.symbol(graph.nodes()) as usize);
        for input in 0..graph.inputs {
            let sum = work.copy(&[input]);
            put(&mut sums, input, sum);
        }
        for node in &order_of(graph, work) {
            if let Some(old) = graph.sum(*node) {
                let sum = self.sum_of(work, &sums, old);
                put(&mut sums, graph.symbol(*node), sum);
            }
        }
        sums
    }

    // A sum whose products are made.
    fn sum_of(&mut self, work: &mut Work, sums: &[Vec<u32>], old: &SymbolSum) -> Vec<u32> {
        let mut sum = total_of(work, sums, &old.bits);
        if old.one {
            sum = work.sum_of(&sum, &[CONSTANT]);
        }
        for product in &old.products {
            let first = total_of(work, sums, &product.first);
            let second = total_of(work, sums, &product.second);
            let symbol = self.push(work, first, second);
            sum = work.sum_of(&sum, &[symbol]);
        }
        sum
    }

    /// A new product, behind all others; its symbol.
    pub fn push(&mut self, work: &mut Work, first: Vec<u32>, second: Vec<u32>) -> u32 {
        let symbol = self.symbol(self.products.len());
        let one = self.values_of(work, &first);
        let other = self.values_of(work, &second);
        let product = Product {
            first,
            second,
            values: product_of(work, &one, &other),
        };
        work.push(&mut self.products, product);
        symbol
    }

    /// The symbol of a product.
    pub fn symbol(&self, place: usize) -> u32 {
        self.inputs.saturating_add(number(place))
    }

    /// The product of a symbol.
    pub fn product(&self, symbol: u32) -> Option<&Product> {
        let place = symbol.checked_sub(self.inputs)?;
        self.products.get(place as usize)
    }

    /// The values of a sum.
    pub fn values_of(&self, work: &mut Work, sum: &[u32]) -> Vec<u64> {
        let has_constant = sum.first() == Some(&CONSTANT);
        let mut values = self.rows.of_bits(work, has_constant, &[]);
        for symbol in sum {
            match self.product(*symbol) {
                Some(product) => add(&mut values, &product.values),
                None => add(&mut values, self.rows.values(*symbol)),
            }
        }
        values
    }
}

// The sum of what symbols are.
fn total_of(work: &mut Work, sums: &[Vec<u32>], symbols: &[u32]) -> Vec<u32> {
    let mut sum = Vec::new(work.alloc);
    for symbol in symbols {
        sum = work.sum_of(&sum, list_at(sums, *symbol));
    }
    sum
}

// ---- into a graph

impl Network {
    /// Makes nodes of all products, and gives the outputs of the graph their sums.
    pub fn give_back(&self, graph: &mut Graph, work: &mut Work) {
        let mut order = Vec::new(work.alloc);
        let symbols = self.push_products(graph, work, &mut order);
        let old = order_of(graph, work);
        work.append(&mut order, &old);
        for (output, own) in graph.outputs().zip(&self.outputs) {
            let mut sum = SymbolSum::zero(work.alloc);
            let own = affine(work, own, &symbols);
            sum.add_affine(work, &own);
            give(graph, work, &order, output, sum);
        }
    }

    // Makes nodes of all products, in an order; the symbols of the inputs and of these.
    fn push_products(&self, graph: &mut Graph, work: &mut Work, order: &mut Vec<u32>) -> Vec<u32> {
        let mut symbols = Vec::new(work.alloc);
        for input in 0..self.inputs {
            work.push(&mut symbols, input);
        }
        for product in &self.products {
            let first = affine(work, &product.first, &symbols);
            let second = affine(work, &product.second, &symbols);
            let mut sum = SymbolSum::zero(work.alloc);
            sum.add_product(work, &first, &second);
            let node = graph.push(work, sum, 0);
            work.push(&mut symbols, graph.symbol(node));
            work.push(order, node);
        }
        symbols
    }
}

// A sum with other symbols.
fn affine(work: &mut Work, sum: &[u32], symbols: &[u32]) -> Affine {
    let mut made = Affine::zero(work.alloc);
    for symbol in sum {
        match symbols.get(*symbol as usize) {
            Some(other) => made.bits = work.sum_of(&made.bits, &[*other]),
            None => made.one = !made.one,
        }
    }
    made
}
