// Which work lines are taken.
use layer_graphs::LayerGraph;
use plan_tools::{Table, Work};

/// The work lines that are taken: a line for each node that is made and not cleared, and in each
/// layer one for each factor but for the first that is a given symbol alone, and for those of
/// several symbols of which one is in no other factor.
#[derive(Drop)]
pub struct Room {
    /// How many nodes have lines.
    pub held: u32,
    taken: u32,
    /// The number of the layer.
    layer: u32,
    wants: Table<Want>,
}

// How a layer wants a symbol.
#[derive(Clone, Copy)]
struct Want {
    layer: u32,
    /// How many factors have it.
    factors: u32,
    /// Whether its line is a control.
    is_control: bool,
}

impl Room {
    /// No line is taken, and no layer yet, of so many symbols.
    pub fn new(work: &mut Work, symbols: u32) -> Room {
        let none = Want {
            layer: 0,
            factors: 0,
            is_control: false,
        };
        Room {
            held: 0,
            taken: 0,
            layer: 0,
            wants: Table::new(work, symbols as usize, none),
        }
    }

    /// The next layer, in which no factor has a line yet.
    pub fn advance(&mut self) {
        self.layer = self.layer.saturating_add(1);
        self.taken = 0;
    }

    /// How many lines are taken.
    pub fn lines(&self) -> u32 {
        self.held.saturating_add(self.taken)
    }

    // How this layer wants a symbol.
    fn want(&self, symbol: u32) -> Want {
        let want = self.wants.get(symbol);
        if want.layer == self.layer {
            return want;
        }
        Want {
            layer: self.layer,
            factors: 0,
            is_control: false,
        }
    }

    /// The factors of these nodes will take lines in this layer.
    pub fn ask_all(&mut self, graph: &LayerGraph, symbols: &[u32]) {
        for symbol in symbols {
            for factor in graph.factors(*symbol) {
                self.ask(factor);
            }
        }
    }

    /// A factor will take a line in this layer.
    pub fn ask(&mut self, factor: &[u32]) {
        for symbol in factor {
            let mut want = self.want(*symbol);
            want.factors = want.factors.saturating_add(1);
            self.wants.set(*symbol, want);
        }
    }

    /// Whether one factor of the layer alone has a symbol: then the others of that may be added to
    /// its line.
    pub fn is_own(&self, symbol: u32) -> bool {
        self.want(symbol).factors == 1
    }

    /// How many lines a product wants in this layer.
    pub fn wanted(&self, factors: [&[u32]; 2]) -> u32 {
        let mut lines: u32 = 0;
        for factor in factors {
            lines = lines.saturating_add(self.wanted_by(factor));
        }
        lines
    }

    fn wanted_by(&self, factor: &[u32]) -> u32 {
        match factor {
            [symbol] => u32::from(self.want(*symbol).is_control),
            _ => u32::from(!factor.iter().any(|symbol| self.is_own(*symbol))),
        }
    }

    /// A product takes lines.
    pub fn take(&mut self, factors: [&[u32]; 2]) {
        for factor in factors {
            self.taken = self.taken.saturating_add(self.wanted_by(factor));
            if let [symbol] = factor {
                let mut want = self.want(*symbol);
                want.is_control = true;
                self.wants.set(*symbol, want);
            }
        }
    }
}
