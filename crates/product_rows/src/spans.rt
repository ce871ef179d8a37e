// Which nodes are sums of earlier ones, by their values.
use crate::echelon::{CONSTANT, Echelon};
use crate::rows::Rows;
use plan_tools::{Table, Work, number};
use std::collections::BTreeMap;
use symbol_graphs::{Affine, Graph};

// The most nodes that are told apart, and the most symbols of a sum that takes a node's place.
const MOST_ROWS: usize = 600;

const MOST_BITS: usize = 16;

const NONE: u32 = u32::MAX;

/// Nodes that are sums of earlier ones in all rows.
#[derive(Drop)]
pub struct Spans {
    rows: Echelon,
    /// Symbols by the marks of their values.
    known: BTreeMap<u64, u32>,
    sums: Vec<Affine>,
    places: Table<u32>,
}

impl Spans {
    /// Those among the nodes of an order that have products.
    pub fn of(graph: &Graph, work: &mut Work, rows: &Rows, order: &[u32]) -> Spans {
        let mut spans = Spans {
            rows: Echelon::new(work.alloc),
            known: BTreeMap::new(work.alloc),
            sums: Vec::new(work.alloc),
            places: Table::new(work, graph.symbol(graph.nodes()) as usize, NONE),
        };
        let all = rows.all(work);
        let constant = work.copy(&[CONSTANT]);
        spans.rows.add(work, constant, all);
        for input in 0..graph.inputs {
            spans.add_known(work, rows, input);
            let values = work.copy(rows.values(input));
            let symbols = work.copy(&[input]);
            spans.rows.add(work, symbols, values);
        }
        for node in order {
            let symbol = graph.symbol(*node);
            if !spans.add_known(work, rows, symbol)
                && !graph.products(*node).is_empty()
                && spans.rows.rank() < MOST_ROWS
            {
                spans.add_node(work, rows, symbol);
            }
        }
        spans
    }

    // Notes a symbol by its values; whether an earlier one has the same, or the opposite ones.
    fn add_known(&mut self, work: &mut Work, rows: &Rows, symbol: u32) -> bool {
        let mark = mark_of(rows.values(symbol));
        let Some(other) = self.known.get(&mark).copied() else {
            work.note(self.known.insert(mark, symbol));
            return false;
        };
        let values = rows.values(symbol);
        let first = values.first().copied().unwrap_or(0)
            ^ rows.values(other).first().copied().unwrap_or(0);
        let mut sum = Affine::symbol(work, other);
        sum.one = first & 1 == 1;
        let same = rows.of_bits(work, sum.one, &sum.bits).as_slice() == values;
        if same {
            self.note(work, symbol, sum);
        }
        same
    }

    fn note(&mut self, work: &mut Work, symbol: u32, sum: Affine) {
        self.places.set(symbol, number(self.sums.len()));
        work.push(&mut self.sums, sum);
    }

    fn add_node(&mut self, work: &mut Work, rows: &Rows, symbol: u32) {
        let values = work.copy(rows.values(symbol));
        let own = work.copy(&[symbol]);
        let Some(symbols) = self.rows.add(work, own, values) else {
            return;
        };
        let sum = Affine {
            one: symbols.first() == Some(&CONSTANT),
            bits: others(work, &symbols, symbol),
        };
        if sum.bits.len() <= MOST_BITS {
            self.note(work, symbol, sum);
        }
    }

    /// The sum of earlier symbols that a symbol is.
    pub fn sum(&self, symbol: u32) -> Option<&Affine> {
        self.sums.get(self.places.get(symbol) as usize)
    }
}

// The symbols without this one and the constant.
fn others(work: &mut Work, symbols: &[u32], symbol: u32) -> Vec<u32> {
    let mut others = Vec::new(work.alloc);
    for other in symbols {
        if *other != symbol && *other != CONSTANT {
            work.push(&mut others, *other);
        }
    }
    others
}

// A number that equal and opposite values have too, and others hardly ever.
fn mark_of(values: &[u64]) -> u64 {
    let flip = 0_u64.wrapping_sub(values.first().copied().unwrap_or(0) & 1);
    let mut mark: u64 = 0;
    for word in values {
        mark = (mark.rotate_left(23) ^ *word ^ flip).wrapping_mul(0x9e37_79b9_7f4a_7c15);
    }
    mark
}
