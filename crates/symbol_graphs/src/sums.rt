// Sums of symbols and of products of two sums of symbols. A set of symbols is the falling list of
// them.
use plan_tools::Work;
use std::alloc::Global;
use std::cmp::Ordering;
use std::mem;

/// The product of two sums of symbols.
#[derive(Drop)]
pub struct SymbolProduct {
    pub first: Vec<u32>,
    pub second: Vec<u32>,
}

impl SymbolProduct {
    /// The same product.
    pub fn copy(&self, work: &mut Work) -> SymbolProduct {
        SymbolProduct {
            first: work.copy(&self.first),
            second: work.copy(&self.second),
        }
    }

    // By the first factors, and then by the second ones.
    fn order(&self, other: &SymbolProduct) -> Ordering {
        match self.first.as_slice().cmp(other.first.as_slice()) {
            Ordering::Equal => self.second.as_slice().cmp(other.second.as_slice()),
            order => order,
        }
    }

    /// Whether it stands for its plane: of the sums in that its factors are the least.
    pub fn is_least(&self, work: &mut Work) -> bool {
        let sum = work.sum_of(&self.first, &self.second);
        is_less(&self.first, &sum)
            && is_less(&self.second, &sum)
            && comes_first(&self.first, &self.second)
    }

    /// How many symbols both factors have.
    pub fn size(&self) -> usize {
        self.first.len().saturating_add(self.second.len())
    }

    /// Whether a factor has a symbol.
    pub fn has(&self, symbol: u32) -> bool {
        self.first.contains(&symbol) || self.second.contains(&symbol)
    }
}

/// The sum of symbols, and of the constant 1 where it has that.
#[derive(Drop)]
pub struct Affine {
    pub one: bool,
    pub bits: Vec<u32>,
}

impl Affine {
    /// The constant 0.
    pub fn zero(alloc: Global) -> Affine {
        Affine {
            one: false,
            bits: Vec::new(alloc),
        }
    }

    /// One symbol.
    pub fn symbol(work: &mut Work, symbol: u32) -> Affine {
        Affine {
            one: false,
            bits: work.copy(&[symbol]),
        }
    }

    /// Adds another one.
    pub fn add(&mut self, work: &mut Work, other: &Affine) {
        self.one = self.one != other.one;
        self.bits = work.sum_of(&self.bits, &other.bits);
    }
}

/// The sum of symbols, of products, and of the constant 1 where it has that. The products stand in
/// an order, each once.
#[derive(Drop)]
pub struct SymbolSum {
    pub one: bool,
    pub bits: Vec<u32>,
    pub products: Vec<SymbolProduct>,
}

impl SymbolSum {
    /// The constant 0.
    pub fn zero(alloc: Global) -> SymbolSum {
        SymbolSum {
            one: false,
            bits: Vec::new(alloc),
            products: Vec::new(alloc),
        }
    }

    /// The same sum.
    pub fn copy(&self, work: &mut Work) -> SymbolSum {
        let mut products = Vec::new(work.alloc);
        for product in &self.products {
            let product = product.copy(work);
            work.push(&mut products, product);
        }
        SymbolSum {
            one: self.one,
            bits: work.copy(&self.bits),
            products,
        }
    }

    /// Whether it is the constant 0 as it stands.
    pub fn is_zero(&self) -> bool {
        !self.one && self.bits.is_empty() && self.products.is_empty()
    }

    /// Adds symbols.
    pub fn add_bits(&mut self, work: &mut Work, bits: &[u32]) {
        self.bits = work.sum_of(&self.bits, bits);
    }

    /// Adds symbols and a constant.
    pub fn add_affine(&mut self, work: &mut Work, other: &Affine) {
        self.one = self.one != other.one;
        self.add_bits(work, &other.bits);
    }

    /// Adds another sum.
    pub fn add(&mut self, work: &mut Work, other: &SymbolSum) {
        self.one = self.one != other.one;
        self.add_bits(work, &other.bits);
        for product in &other.products {
            let product = product.copy(work);
            self.toggle(work, product);
        }
    }

    /// Adds a product: one that stands there goes out.
    pub fn toggle(&mut self, work: &mut Work, product: SymbolProduct) {
        match self
            .products
            .binary_search_by(|other| other.order(&product))
        {
            Ok(place) => drop(self.products.remove(place)),
            Err(place) => {
                let inserted = self.products.insert(place, product);
                work.note(inserted);
            }
        }
    }

    /// Adds the product of two sums of symbols.
    pub fn add_product(&mut self, work: &mut Work, a: &Affine, b: &Affine) {
        self.one = self.one != (a.one && b.one);
        if b.one {
            self.add_bits(work, &a.bits);
        }
        if a.one {
            self.add_bits(work, &b.bits);
        }
        self.add_plane(work, &a.bits, &b.bits);
    }

    // Adds the product of two sets of symbols, as that of the two least of `a`, `b` and `a + b`:
    // `a b = a + a (a + b)`.
    fn add_plane(&mut self, work: &mut Work, a: &[u32], b: &[u32]) {
        if a.is_empty() || b.is_empty() {
            return;
        }
        if a == b {
            self.add_bits(work, a);
            return;
        }
        let sum = work.sum_of(a, b);
        if is_less(a, &sum) && is_less(b, &sum) {
            self.toggle_pair(work, a, b);
        } else if is_less(a, b) {
            self.add_bits(work, a);
            self.toggle_pair(work, a, &sum);
        } else {
            self.add_bits(work, b);
            self.toggle_pair(work, b, &sum);
        }
    }

    fn toggle_pair(&mut self, work: &mut Work, a: &[u32], b: &[u32]) {
        let (first, second) = if comes_first(a, b) { (a, b) } else { (b, a) };
        let product = SymbolProduct {
            first: work.copy(first),
            second: work.copy(second),
        };
        self.toggle(work, product);
    }

    /// All symbols that it has, falling.
    pub fn symbols(&self, work: &mut Work) -> Vec<u32> {
        let mut symbols = work.copy(&self.bits);
        if self.products.is_empty() {
            return symbols;
        }
        for product in &self.products {
            work.append(&mut symbols, &product.first);
            work.append(&mut symbols, &product.second);
        }
        work.sort_falling(&mut symbols);
        symbols.dedup();
        symbols
    }

    /// The sum, which is 0 then.
    pub fn take(&mut self, alloc: Global) -> SymbolSum {
        mem::replace(self, SymbolSum::zero(alloc))
    }

    /// A number that equal sums without constants have too, and others hardly ever.
    pub fn mark(&self) -> u64 {
        let mut mark = mixed(1, &self.bits);
        for product in &self.products {
            mark = mixed(mixed(mark ^ 2, &product.first) ^ 3, &product.second);
        }
        mark
    }
}

// Whether a set of symbols has fewer than another one, or as many and comes first.
fn is_less(a: &[u32], b: &[u32]) -> bool {
    a.len() < b.len() || a.len() == b.len() && a < b
}

// Whether a set comes before another one by the dictionary's order of their rising symbols.
fn comes_first(a: &[u32], b: &[u32]) -> bool {
    a.iter().rev().cmp(b.iter().rev()).is_lt()
}

/// A number mixed with symbols.
pub fn mixed(mark: u64, symbols: &[u32]) -> u64 {
    let mut mark = mark;
    for symbol in symbols {
        let turned = mark.rotate_left(23) ^ u64::from(*symbol);
        mark = turned.wrapping_add(1).wrapping_mul(0x9e37_79b9_7f4a_7c15);
    }
    mark.wrapping_mul(0xff51_afd7_ed55_8ccd) ^ symbols.len() as u64
}
