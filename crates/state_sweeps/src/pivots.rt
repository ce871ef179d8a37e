// The state solved for the symbols of greatest weight.
use plan_tools::{Echelon, Row, Table, Work, number};
use state_graphs::StateGraph;
use state_rows::{Layer, StateRows, copy_of};

/// How many rows that are passed are a unit of work.
const PER_UNIT: usize = 16;

/// The symbols in the order of their weights, the least first.
#[derive(Drop)]
pub struct ByWeight {
    symbols: Table<u32>,
    /// Of each symbol its place in that order.
    ranks: Table<u32>,
}

/// The rows of a state, each with another symbol of the greatest weight.
#[derive(Drop)]
pub struct Pivots {
    /// Over the places of symbols: a row for each of `made`.
    rows: Echelon,
    made: Vec<Made>,
}

// A row of the state, and when it changed last.
#[derive(Clone, Copy)]
struct Made {
    row: Row,
    moment: u64,
}

impl ByWeight {
    /// The symbols of a graph.
    pub fn of(work: &mut Work, graph: &StateGraph) -> ByWeight {
        let keys = keys_of(work, graph);
        let mut symbols = Vec::new(work.alloc);
        let mut ranks = Table::new(work, keys.len(), 0);
        for (_, symbol) in &keys {
            ranks.set(*symbol, number(symbols.len()));
            work.push(&mut symbols, *symbol);
        }
        ByWeight {
            symbols: Table::of(symbols, 0),
            ranks,
        }
    }

    // The places of the symbols of a vector, falling.
    fn places(&self, work: &mut Work, vector: &[u32]) -> Vec<u32> {
        let mut places = Vec::new(work.alloc);
        for symbol in vector {
            work.push(&mut places, self.ranks.get(*symbol));
        }
        work.sort_falling(&mut places);
        places
    }

    /// Whether a symbol is a pivot.
    pub fn is_pivot(&self, pivots: &Pivots, symbol: u32) -> bool {
        pivots.rows.with_head(self.ranks.get(symbol)).is_some()
    }

    /// What the state does not know of a vector: it is rid of all pivots.
    pub fn unknown(&self, work: &mut Work, pivots: &Pivots, vector: &[u32]) -> Vec<u32> {
        let mut left = self.places(work, vector);
        let mut unknown = Vec::new(work.alloc);
        let mut at: usize = 0;
        for _ in 0..pivots.rows.symbols() {
            let Some(place) = left.get(at).copied() else {
                break;
            };
            if let Some(row) = pivots.rows.with_head(place) {
                left = pivots.rows.plus(work, &left[at..], row);
                at = 0;
            } else {
                work.push(&mut unknown, self.symbols.get(place));
                at = at.saturating_add(1);
            }
        }
        work.sort_falling(&mut unknown);
        unknown
    }
}

impl Pivots {
    /// No rows, over so many symbols.
    pub fn none(work: &mut Work, symbols: usize) -> Pivots {
        Pivots {
            rows: Echelon::new(work, symbols),
            made: Vec::new(work.alloc),
        }
    }

    /// The same once more.
    pub fn copy(&self, work: &mut Work) -> Pivots {
        Pivots {
            rows: copy_of(work, &self.rows),
            made: work.copy(&self.made),
        }
    }

    /// Brings them up to date: what was made behind a row that changed is made anew, and last what
    /// changed, so that rows which stay the same come first in time.
    pub fn renew(&mut self, work: &mut Work, by_weight: &ByWeight, rows: &mut StateRows) {
        work.spend((self.made.len() / PER_UNIT) as u64);
        let kept = self.unchanged(rows);
        let behind = self.drop_behind(work, kept);
        for made in &behind {
            if rows.moment(made.row) == made.moment {
                self.put(work, by_weight, rows, made.row);
            }
        }
        let changed = rows.take_changed(work);
        self.put_changed(work, by_weight, rows, &changed);
    }

    // Puts those of some rows that are of the state and have a vector.
    fn put_changed(
        &mut self,
        work: &mut Work,
        by_weight: &ByWeight,
        rows: &StateRows,
        changed: &[Row],
    ) {
        for row in changed {
            if rows.layer(*row) == Layer::State && !rows.vector(*row).is_empty() {
                self.put(work, by_weight, rows, *row);
            }
        }
    }

    // How many of them were made before the first one that changed.
    fn unchanged(&self, rows: &StateRows) -> usize {
        let mut count: usize = 0;
        for made in &self.made {
            if rows.moment(made.row) != made.moment {
                break;
            }
            count = count.saturating_add(1);
        }
        count
    }

    // Takes all but so many out.
    fn drop_behind(&mut self, work: &mut Work, kept: usize) -> Vec<Made> {
        let kept = kept.min(self.made.len());
        let behind = work.copy(&self.made[kept..]);
        self.made.truncate(kept);
        for row in kept..kept.saturating_add(behind.len()) {
            let _ = self.rows.take(work, number(row));
        }
        behind
    }

    // Puts a row of the state.
    fn put(&mut self, work: &mut Work, by_weight: &ByWeight, rows: &StateRows, row: Row) {
        let places = by_weight.places(work, rows.vector(row));
        let reduced = self.rows.reduced(work, &places);
        if self.made.len() >= self.rows.made() {
            let _ = self.rows.fresh(work);
        }
        let place = number(self.made.len());
        self.rows.put(work, place, reduced.left);
        let moment = rows.moment(row);
        work.push(&mut self.made, Made { row, moment });
    }
}

// The symbols of a graph with their weights, the least first.
fn keys_of(work: &mut Work, graph: &StateGraph) -> Vec<(u32, u32)> {
    let mut keys = Vec::new(work.alloc);
    for symbol in 0..number(graph.symbols()) {
        work.push(&mut keys, (graph.weights.get(symbol), symbol));
    }
    keys.sort_unstable();
    keys
}
