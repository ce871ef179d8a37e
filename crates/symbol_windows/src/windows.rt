// Windows: nodes below a target that are written out over at most six independent sums of symbols.
use plan_tools::Work;
use symbol_graphs::{Graph, SymbolProduct, SymbolSum};
use window_programs::VARIABLES;

// The most sums of symbols that a window is written out over, in one word and in many turns.
const RANK: usize = 6;

const WIDE_RANK: usize = 10;

// The most products of a window, and the most symbols of a sum that a factor is written out as.
const MOST_PRODUCTS: usize = 30;

const MOST_BITS: usize = 40;

// What a window costs beside the symbols that are read for it.
const WINDOW_UNITS: usize = 20;

/// What the words of a window have.
#[derive(Clone, Copy)]
pub enum Width {
    /// All rows of at most six sums.
    Narrow,
    /// Those rows of at most ten sums in which the last four have the values of a turn.
    Wide(u64),
}

impl Width {
    /// The word of a sum; none behind the last one.
    pub fn variable(self, place: usize) -> Option<u64> {
        match self {
            _ if place < RANK => VARIABLES.get(place).copied(),
            Width::Wide(turn) if place < WIDE_RANK => {
                let bit = turn >> (place - RANK) & 1;
                Some(0_u64.wrapping_sub(bit))
            }
            _ => None,
        }
    }
}

/// Some products of a node.
#[derive(Drop)]
pub struct Target {
    pub node: u32,
    pub own: Vec<usize>,
}

impl Target {
    /// Whether a product, by its place, is of the target.
    pub fn has(&self, place: usize) -> bool {
        self.own.contains(&place)
    }
}

/// An opened node written out: the sum of some symbols, and a word.
#[derive(Drop)]
pub struct Known {
    pub symbol: u32,
    pub leaf: Vec<u32>,
    pub word: u64,
    /// Whether no product is in it.
    pub is_linear: bool,
}

/// Opened nodes written out over a basis of sums, and the sum of the target's products.
#[derive(Drop)]
pub struct Window {
    pub opened: Vec<u32>,
    pub basis: Vec<Vec<u32>>,
    pub known: Vec<Known>,
    pub own: u64,
    pub width: Width,
    products: usize,
    read: usize,
}

// A sum of symbols with opened nodes written out.
#[derive(Drop)]
struct Written {
    leaf: Vec<u32>,
    word: u64,
    is_linear: bool,
}

impl Window {
    /// The window of a target with these nodes opened, which rise in the order; none where it would
    /// have more sums or products than it may.
    pub fn of(
        graph: &Graph,
        work: &mut Work,
        target: &Target,
        opened: Vec<u32>,
        width: Width,
    ) -> Option<Window> {
        let mut window = Window {
            opened,
            basis: Vec::new(work.alloc),
            known: Vec::new(work.alloc),
            own: 0,
            width,
            products: 0,
            read: 0,
        };
        let fits = window.open_all(graph, work) && window.add_own(graph, work, target);
        work.spend(window.read.saturating_add(WINDOW_UNITS) as u64);
        if fits { Some(window) } else { None }
    }

    /// How many sums it is written out over.
    pub fn rank(&self) -> usize {
        self.basis.len()
    }

    /// What is known of a symbol.
    pub fn known(&self, symbol: u32) -> Option<&Known> {
        self.known.iter().find(|known| known.symbol == symbol)
    }

    fn open_all(&mut self, graph: &Graph, work: &mut Work) -> bool {
        for place in 0..self.opened.len() {
            let Some(symbol) = self.opened.get(place).copied() else {
                return false;
            };
            let Some(sum) = graph.sum_of_symbol(symbol) else {
                return false;
            };
            if !self.open(work, symbol, sum) {
                return false;
            }
        }
        true
    }

    // Writes a node out.
    fn open(&mut self, work: &mut Work, symbol: u32, sum: &SymbolSum) -> bool {
        let mut written = self.written(work, &sum.bits);
        if sum.one {
            written.word ^= u64::MAX;
        }
        for product in &sum.products {
            let Some(word) = self.word_of_product(work, product) else {
                return false;
            };
            written.word ^= word;
        }
        let known = Known {
            symbol,
            leaf: written.leaf,
            word: written.word,
            is_linear: written.is_linear && sum.products.is_empty(),
        };
        work.push(&mut self.known, known);
        true
    }

    fn add_own(&mut self, graph: &Graph, work: &mut Work, target: &Target) -> bool {
        let products = graph.products(target.node);
        for place in &target.own {
            let word = match products.get(*place) {
                Some(product) => self.word_of_product(work, product),
                None => None,
            };
            let Some(word) = word else {
                return false;
            };
            self.own ^= word;
        }
        true
    }

    // A sum of symbols with opened nodes written out.
    fn written(&self, work: &mut Work, symbols: &[u32]) -> Written {
        let mut made = Written {
            leaf: Vec::new(work.alloc),
            word: 0,
            is_linear: true,
        };
        let mut plain = Vec::new(work.alloc);
        work.note(plain.reserve(symbols.len()));
        for symbol in symbols {
            match self.known(*symbol) {
                Some(known) => {
                    made.leaf = work.sum_of(&made.leaf, &known.leaf);
                    made.word ^= known.word;
                    made.is_linear = made.is_linear && known.is_linear;
                }
                None => work.push(&mut plain, *symbol),
            }
        }
        made.leaf = if made.leaf.is_empty() {
            plain
        } else {
            work.sum_of(&made.leaf, &plain)
        };
        made
    }

    fn word_of_product(&mut self, work: &mut Work, product: &SymbolProduct) -> Option<u64> {
        if self.products >= MOST_PRODUCTS {
            return None;
        }
        self.products += 1;
        let first = self.word_of(work, &product.first)?;
        let second = self.word_of(work, &product.second)?;
        Some(first & second)
    }

    // The word of a factor.
    fn word_of(&mut self, work: &mut Work, symbols: &[u32]) -> Option<u64> {
        let written = self.written(work, symbols);
        self.read = self.read.saturating_add(written.leaf.len());
        if written.leaf.len() > MOST_BITS {
            return None;
        }
        let (left, word) = self.over_basis(work, written.leaf);
        let word = word ^ written.word;
        if left.is_empty() {
            return Some(word);
        }
        let variable = self.width.variable(self.basis.len())?;
        work.push(&mut self.basis, left);
        Some(word ^ variable)
    }

    /// A sum of symbols less sums of the basis, and the word of these.
    pub fn over_basis(&self, work: &mut Work, symbols: Vec<u32>) -> (Vec<u32>, u64) {
        let mut left = symbols;
        let mut word = 0;
        for (place, sum) in self.basis.iter().enumerate() {
            if let Some(head) = sum.first()
                && has_symbol(&left, *head)
            {
                left = work.sum_of(&left, sum);
                word ^= self.width.variable(place).unwrap_or(0);
            }
        }
        (left, word)
    }

    /// The word of a sum of symbols; none where the basis does not have it.
    pub fn word_over_basis(&self, work: &mut Work, symbols: &[u32]) -> Option<u64> {
        let symbols = work.copy(symbols);
        let (left, word) = self.over_basis(work, symbols);
        if left.is_empty() { Some(word) } else { None }
    }
}

/// Whether a falling list has a symbol.
pub fn has_symbol(symbols: &[u32], symbol: u32) -> bool {
    symbols.binary_search_by(|other| symbol.cmp(other)).is_ok()
}
