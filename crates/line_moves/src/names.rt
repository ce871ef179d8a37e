// Nodes that take the places of their bits on the lines of factors.
use crate::lines::{Factor, Part, Product};
use crate::writing::Writing;
use plan_tools::{Echelon, Work, number};
use std::alloc::Global;

/// In how many products of one toggle nodes may be written out.
const MOST_PRODUCTS: usize = 256;

/// The most symbols that are added to find the lines for the nodes of one toggle.
const MOST_WORK: u64 = 1_000_000;

impl Writing {
    // The nodes that are written out in factors, each list with a line: toggled onto its lines, a
    // node takes the place of its bits in that factor, and in no other one.
    pub(crate) fn names(&mut self) -> Vec<(Part, u32)> {
        if self.is_written && self.products.len() > MOST_PRODUCTS {
            self.moves.room.give_up();
        }
        if !self.is_written || self.moves.is_stopped() {
            return Vec::new(self.moves.room.alloc);
        }
        let mut parities = Parities::of(self.moves.room.alloc, &self.products, &self.numbers);
        parities.put_all();
        parities.name_all();
        if let Err(stop) = parities.work.finish(()) {
            self.moves.stop(stop);
        }
        parities.names
    }
}

// Rows of symbols, the lines of factors and, behind these, the factors: a set of lines, and the
// factors that have an odd number of them.
#[derive(Drop)]
struct Parities<'w> {
    products: &'w [Product],
    numbers: &'w [u32],
    /// The lines of all factors, rising.
    lines: Vec<u32>,
    rows: Echelon,
    /// Nodes, each list with a line onto which they are toggled.
    names: Vec<(Part, u32)>,
    work: Work,
}

impl<'w> Parities<'w> {
    // No rows yet.
    fn of(alloc: Global, products: &'w [Product], numbers: &'w [u32]) -> Parities<'w> {
        let mut work = Work::new(alloc, MOST_WORK);
        let lines = lines_in(&mut work, products, numbers);
        let factors = products.len().saturating_mul(2);
        let rows = Echelon::new(&mut work, lines.len().saturating_add(factors));
        Parities {
            products,
            numbers,
            lines,
            rows,
            names: Vec::new(alloc),
            work,
        }
    }

    // The symbol of a product's first factor; that of the second one comes behind it.
    fn symbol(&self, product: usize) -> u32 {
        number(self.lines.len().saturating_add(product.saturating_mul(2)))
    }

    // Puts a row for each line, unless its factors are those of other rows together: the lines that
    // the fewest factors have first.
    fn put_all(&mut self) {
        let mut vectors = self.work.lists(self.lines.len());
        self.fill(&mut vectors);
        let mut order = Vec::new(self.work.alloc);
        for place in 0..vectors.len() {
            self.work.push(&mut order, (vectors[place].len(), place));
        }
        order.sort_unstable();
        for (_, place) in &order {
            if *place < vectors.len() {
                self.put(&mut vectors[*place], number(*place));
            }
        }
    }

    // Of each line the symbols of the factors that have it, falling.
    fn fill(&mut self, vectors: &mut [Vec<u32>]) {
        let products = self.products;
        for k in (0..products.len()).rev() {
            let symbol = self.symbol(k);
            let Product { first, second } = products[k];
            self.push_symbol(vectors, second, symbol.saturating_add(1));
            self.push_symbol(vectors, first, symbol);
        }
    }

    // Puts the symbol of a factor behind those before it at each of its lines.
    fn push_symbol(&mut self, vectors: &mut [Vec<u32>], factor: Factor, symbol: u32) {
        for line in factor.lines.of(self.numbers) {
            if let Ok(place) = self.lines.binary_search(line)
                && place < vectors.len()
            {
                self.work.push(&mut vectors[place], symbol);
            }
        }
    }

    // Puts a row of these symbols of factors, and of that of a line.
    fn put(&mut self, vector: &mut Vec<u32>, line: u32) {
        self.work.push(vector, line);
        let reduced = self.rows.reduced(&mut self.work, vector);
        if let Some(head) = reduced.left.first()
            && *head >= self.symbol(0)
        {
            let row = self.rows.fresh(&mut self.work);
            self.rows.put(&mut self.work, row, reduced.left);
        }
    }

    fn name_all(&mut self) {
        let products = self.products;
        for k in 0..products.len() {
            let symbol = self.symbol(k);
            let Product { first, second } = products[k];
            self.name(first, symbol);
            self.name(second, symbol.saturating_add(1));
        }
    }

    // Pairs the nodes of a factor with each of the lines of which it alone has an odd number.
    fn name(&mut self, factor: Factor, symbol: u32) {
        if factor.written.is_empty() {
            return;
        }
        let reduced = self.rows.reduced(&mut self.work, &[symbol]);
        for place in &reduced.left {
            match self.lines.get(*place as usize) {
                Some(line) => self.work.push(&mut self.names, (factor.written, *line)),
                None => self.work.give_up(),
            }
        }
    }
}

// The lines of all factors, rising.
fn lines_in(work: &mut Work, products: &[Product], numbers: &[u32]) -> Vec<u32> {
    let mut lines = Vec::new(work.alloc);
    for product in products {
        work.append(&mut lines, product.first.lines.of(numbers));
        work.append(&mut lines, product.second.lines.of(numbers));
    }
    lines.sort_unstable();
    lines.dedup();
    lines
}
