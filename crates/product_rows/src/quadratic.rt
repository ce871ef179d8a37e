// The products of a node as a quadratic form: half of its rank is how many it takes.
use plan_tools::{Work, list_at, number, put};
use symbol_graphs::{Affine, Graph, Opened, SymbolProduct, SymbolSum};

// The most products and symbols of a node whose form is looked at, and the most independent sums
// that its factors are of, since they are those of a window.
const MOST_PRODUCTS: usize = 64;

const MOST_SYMBOLS: usize = 100;

const MOST_SUMS: usize = 16;

/// Makes the products of a node anew, as many as half the rank of their sum; how many are gone.
pub fn by_rank(graph: &mut Graph, work: &mut Work, node: u32) -> usize {
    let count = graph.products(node).len();
    let Some(opened) = sums_of(work, graph.products(node)) else {
        return 0;
    };
    let Some(sum) = graph.sum(node) else {
        return 0;
    };
    let Some(made) = remade(work, sum) else {
        return 0;
    };
    let gain = count.saturating_sub(made.products.len());
    graph.replace(work, node, made, opened);
    gain
}

// The sums that factors are made of; none where they are too many, or no two products have less
// than four of them.
fn sums_of(work: &mut Work, products: &[SymbolProduct]) -> Option<Opened> {
    if products.len() < 2 || products.len() > MOST_PRODUCTS {
        return None;
    }
    let mut opened = Opened::new(work.alloc);
    for product in products {
        opened.add_sum(work, &product.first);
        opened.add_sum(work, &product.second);
        if opened.sums.len() > MOST_SUMS {
            return None;
        }
    }
    if opened.sums.len() < products.len().saturating_mul(2) {
        Some(opened)
    } else {
        None
    }
}

// The same sum with fewer products; none where it takes as many.
fn remade(work: &mut Work, sum: &SymbolSum) -> Option<SymbolSum> {
    let mut form = Form::of(work, sum)?;
    let mut made = SymbolSum::zero(work.alloc);
    made.one = sum.one;
    for _ in &sum.products {
        let Some((first, second)) = form.shortest(work) else {
            made.add_bits(work, &sum.bits);
            made.add_bits(work, &form.bits);
            return Some(made);
        };
        form.add(work, &first.bits, &second.bits);
        made.add_product(work, &first, &second);
    }
    None
}

// A sum of products of two symbols: of each symbol those that it is multiplied by.
#[derive(Drop)]
struct Form {
    symbols: Vec<u32>,
    others: Vec<Vec<u32>>,
    /// Symbols that were multiplied by themselves.
    bits: Vec<u32>,
}

impl Form {
    fn of(work: &mut Work, sum: &SymbolSum) -> Option<Form> {
        let mut symbols = Vec::new(work.alloc);
        for product in &sum.products {
            work.append(&mut symbols, &product.first);
            work.append(&mut symbols, &product.second);
        }
        work.sort_falling(&mut symbols);
        symbols.dedup();
        if symbols.len() > MOST_SYMBOLS {
            return None;
        }
        let mut form = Form {
            others: work.lists(symbols.len()),
            symbols,
            bits: Vec::new(work.alloc),
        };
        for product in &sum.products {
            form.add(work, &product.first, &product.second);
        }
        Some(form)
    }

    // Adds the product of two sums.
    fn add(&mut self, work: &mut Work, first: &[u32], second: &[u32]) {
        work.spend(self.symbols.len() as u64);
        for (place, symbol) in self.symbols.iter().enumerate() {
            let (is_first, is_second) = (first.contains(symbol), second.contains(symbol));
            let mut others = work.copy(list_at(&self.others, number(place)));
            if is_first {
                others = work.sum_of(&others, second);
            }
            if is_second {
                others = work.sum_of(&others, first);
            }
            if is_first && is_second {
                self.bits = work.sum_of(&self.bits, &[*symbol]);
            }
            put(&mut self.others, number(place), others);
        }
    }

    // Two sums of symbols, of the fewest together, whose product has all products of two symbols;
    // none where there are none.
    fn shortest(&self, work: &mut Work) -> Option<(Affine, Affine)> {
        let mut least = usize::MAX;
        let mut best = None;
        for row in &self.others {
            work.spend(row.len() as u64);
            for symbol in row {
                let other = self.row(*symbol);
                let size = row.len().saturating_add(other.len());
                if size < least {
                    least = size;
                    best = Some((row.as_slice(), other));
                }
            }
        }
        let (first, second) = best?;
        Some((affine(work, first), affine(work, second)))
    }

    // What a symbol is multiplied by.
    fn row(&self, symbol: u32) -> &[u32] {
        match self.symbols.binary_search_by(|other| symbol.cmp(other)) {
            Ok(place) => list_at(&self.others, number(place)),
            Err(_) => &[],
        }
    }
}

fn affine(work: &mut Work, bits: &[u32]) -> Affine {
    Affine {
        one: false,
        bits: work.copy(bits),
    }
}
