// Which sums of symbols have the same values.
use crate::rows::add;
use plan_tools::Work;
use std::alloc::Global;

/// The constant, as a symbol.
pub const CONSTANT: u32 = u32::MAX;

/// Sums of symbols whose values are independent.
#[derive(Drop)]
pub struct Echelon {
    rows: Vec<Row>,
}

// A sum of symbols with its values, and where the first of them is that is not 0.
#[derive(Drop)]
struct Row {
    symbols: Vec<u32>,
    values: Vec<u64>,
    place: usize,
    bit: u64,
}

impl Echelon {
    /// No sums.
    pub fn new(alloc: Global) -> Echelon {
        Echelon {
            rows: Vec::new(alloc),
        }
    }

    /// How many sums there are.
    pub fn rank(&self) -> usize {
        self.rows.len()
    }

    /// Takes a sum with its values in, unless those before make it up: then what vanishes with it.
    pub fn add(
        &mut self,
        work: &mut Work,
        symbols: Vec<u32>,
        values: Vec<u64>,
    ) -> Option<Vec<u32>> {
        let mut values = values;
        let mut symbols = symbols;
        work.spend(self.rows.len().saturating_mul(values.len()) as u64 / 128);
        for row in &self.rows {
            if values.get(row.place).copied().unwrap_or(0) & row.bit != 0 {
                add(&mut values, &row.values);
                symbols = work.sum_of(&symbols, &row.symbols);
            }
        }
        let Some(place) = values.iter().position(|word| *word != 0) else {
            return Some(symbols);
        };
        let word = values.get(place).copied().unwrap_or(0);
        let row = Row {
            symbols,
            values,
            place,
            bit: word & word.wrapping_neg(),
        };
        work.push(&mut self.rows, row);
        None
    }
}
