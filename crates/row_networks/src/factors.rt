// A function as a product of two sums, and a sum beside it, by its values in all rows.
use plan_tools::{Work, number};
use product_rows::{CONSTANT, Echelon, add};

// A known symbol times a factor is the symbol of its place behind this one, before the constant.
const MULTIPLE: u32 = 1 << 30;

/// A product of two sums, none where the first is empty, and a sum beside it.
#[derive(Drop)]
pub struct Factors {
    pub first: Vec<u32>,
    pub second: Vec<u32>,
    pub rest: Vec<u32>,
}

/// A symbol, or the constant, with its values.
#[derive(Drop)]
pub struct Valued {
    pub symbol: u32,
    pub values: Vec<u64>,
}

/// Values as a sum of known symbols; or as a product of a sum of at most so many of them and of
/// another sum, and a sum beside it: the first that is found, the shortest factors first.
pub fn factors_of(
    work: &mut Work,
    known: &[Valued],
    goal: &[u64],
    most_symbols: usize,
) -> Option<Factors> {
    let mut span = span_of(work, known);
    let values = work.copy(goal);
    if let Some(rest) = span.add(work, Vec::new(work.alloc), values) {
        return Some(Factors {
            first: Vec::new(work.alloc),
            second: Vec::new(work.alloc),
            rest,
        });
    }
    let factor = factor_of(work, known, goal, most_symbols)?;
    with_factor(work, known, goal, factor)
}

fn span_of(work: &mut Work, known: &[Valued]) -> Echelon {
    let mut span = Echelon::new(work.alloc);
    for valued in known {
        let symbols = work.copy(&[valued.symbol]);
        let values = work.copy(&valued.values);
        span.add(work, symbols, values);
    }
    span
}

// The first sum of few symbols that is a factor.
fn factor_of(
    work: &mut Work,
    known: &[Valued],
    goal: &[u64],
    most_symbols: usize,
) -> Option<Factor> {
    let mut halves = Halves::new(work, known.len(), goal.len());
    let mut factors = Vec::new(work.alloc);
    let none = Factor {
        symbols: Vec::new(work.alloc),
        values: work.filled(0, goal.len()),
        last: known.len(),
    };
    work.push(&mut factors, none);
    for _ in 0..most_symbols {
        let mut longer = Vec::new(work.alloc);
        for factor in &factors {
            if let Some(found) = halves.longer(work, known, goal, factor, &mut longer) {
                return Some(found);
            }
        }
        factors = longer;
    }
    None
}

// A sum of known symbols with its values, and the place of the last one that was added.
#[derive(Drop)]
struct Factor {
    symbols: Vec<u32>,
    values: Vec<u64>,
    last: usize,
}

impl Factor {
    // The sum with one more symbol.
    fn with(&self, work: &mut Work, valued: &Valued, place: usize) -> Factor {
        let mut values = work.copy(&self.values);
        add(&mut values, &valued.values);
        Factor {
            symbols: work.sum_of(&self.symbols, &[valued.symbol]),
            values,
            last: place,
        }
    }
}

// ---- whether a sum is a factor

// What known symbols span in the rows where a sum is 1, or is 0: a goal that they span in both is a
// product of this sum, and a sum beside it. A row of the basis has no first bit of those before it.
#[derive(Drop)]
struct Halves {
    rows: Vec<Vec<u64>>,
    heads: Vec<(usize, u64)>,
    now: Vec<u64>,
}

impl Halves {
    fn new(work: &mut Work, count: usize, words: usize) -> Halves {
        let mut rows = Vec::new(work.alloc);
        for _ in 0..count {
            let row = work.filled(0, words);
            work.push(&mut rows, row);
        }
        Halves {
            rows,
            heads: Vec::new(work.alloc),
            now: work.filled(0, words),
        }
    }

    // Tries a sum with each symbol before its last one: that which is a factor; else notes all.
    fn longer(
        &mut self,
        work: &mut Work,
        known: &[Valued],
        goal: &[u64],
        factor: &Factor,
        longer: &mut Vec<Factor>,
    ) -> Option<Factor> {
        for (place, valued) in known.iter().take(factor.last).enumerate() {
            if valued.symbol != CONSTANT {
                let next = factor.with(work, valued, place);
                if self.is_factor(work, known, goal, &next.values) {
                    return Some(next);
                }
                work.push(longer, next);
            }
        }
        None
    }

    fn is_factor(
        &mut self,
        work: &mut Work,
        known: &[Valued],
        goal: &[u64],
        factor: &[u64],
    ) -> bool {
        self.is_spanned(work, known, goal, factor, 0)
            && self.is_spanned(work, known, goal, factor, u64::MAX)
    }

    // Whether the goal is a sum where a factor, turned or not, is 1.
    fn is_spanned(
        &mut self,
        work: &mut Work,
        known: &[Valued],
        goal: &[u64],
        factor: &[u64],
        turned: u64,
    ) -> bool {
        self.heads.clear();
        work.spend(known.len() as u64);
        for valued in known {
            self.take(&valued.values, factor, turned);
            if let Some(head) = self.reduced() {
                self.keep(work, head);
            }
        }
        self.take(goal, factor, turned);
        self.reduced().is_none()
    }

    // Takes values where a factor, turned or not, is 1.
    fn take(&mut self, values: &[u64], factor: &[u64], turned: u64) {
        for (place, word) in self.now.iter_mut().enumerate() {
            if let Some(value) = values.get(place)
                && let Some(factor) = factor.get(place)
            {
                *word = *value & (*factor ^ turned);
            }
        }
    }

    // Takes rows away; the first bit of what is left.
    fn reduced(&mut self) -> Option<(usize, u64)> {
        for (row, (place, bit)) in self.rows.iter().zip(&self.heads) {
            if self.now.get(*place).copied().unwrap_or(0) & *bit != 0 {
                add(&mut self.now, row);
            }
        }
        for (place, word) in self.now.iter().enumerate() {
            if *word != 0 {
                return Some((place, *word & word.wrapping_neg()));
            }
        }
        None
    }

    // What is left becomes a row.
    fn keep(&mut self, work: &mut Work, head: (usize, u64)) {
        if let Some(row) = self.rows.get_mut(self.heads.len()) {
            for (word, now) in row.iter_mut().zip(&self.now) {
                *word = *now;
            }
        }
        work.push(&mut self.heads, head);
    }
}

// ---- the other factor

// The other factor, and the sum beside the product.
fn with_factor(work: &mut Work, known: &[Valued], goal: &[u64], factor: Factor) -> Option<Factors> {
    let mut span = span_of(work, known);
    for (place, valued) in known.iter().enumerate() {
        let symbols = work.copy(&[MULTIPLE.saturating_add(number(place))]);
        let values = product_of(work, &valued.values, &factor.values);
        span.add(work, symbols, values);
    }
    let values = work.copy(goal);
    let parts = span.add(work, Vec::new(work.alloc), values)?;
    let mut made = Factors {
        first: factor.symbols,
        second: Vec::new(work.alloc),
        rest: Vec::new(work.alloc),
    };
    for part in &parts {
        made.add(work, known, *part);
    }
    Some(made)
}

impl Factors {
    // A multiple goes into the second factor, what else there is into the rest.
    fn add(&mut self, work: &mut Work, known: &[Valued], part: u32) {
        let place = part.saturating_sub(MULTIPLE) as usize;
        match known.get(place) {
            Some(valued) if part >= MULTIPLE => {
                self.second = work.sum_of(&self.second, &[valued.symbol]);
            }
            _ => self.rest = work.sum_of(&self.rest, &[part]),
        }
    }
}

/// The product of values.
pub fn product_of(work: &mut Work, first: &[u64], second: &[u64]) -> Vec<u64> {
    let mut product = work.copy(first);
    for (word, other) in product.iter_mut().zip(second) {
        *word &= *other;
    }
    product
}
