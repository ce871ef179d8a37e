// The lines on which the factors of a product are gathered.
ghost use Rattle.line_states.specs.Gathers.{GatherView, PairView};

use std::marker::Model;

/// A factor as the sum of the sets of some lines: the lines `others` are added to the line `on`,
/// which holds the factor then, and taken off again behind the flip.
#[derive(Drop)]
pub struct Gather {
    pub on: u32,
    pub others: Vec<u32>,
}

impl Model for Gather {
    ghost Value = { GatherView };

    ghost view = { λ g. record { on = g.on; others = g.others.items } };
}

/// The two factors of a product, each as the sum of the sets of some lines.
#[derive(Drop)]
pub struct Pair {
    pub first: Gather,
    pub second: Gather,
}

impl Model for Pair {
    ghost Value = { PairView };

    ghost view = { λ p. record { first = p.first; second = p.second } };
}
