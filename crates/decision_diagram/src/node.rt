// Numbers of functions, inner nodes and refusals.
ghost use Rattle.std.specs.Prelude.{◌≡◌, ◌≤◌, ◌↔◌, IsTrue, ℕ};
ghost use Rattle.decision_diagram.specs.declared.node.DdFault.TheVariants as faults;
ghost use Rattle.decision_diagram.specs.Diagrams.{side, Triple};

use revc_base::{Memory, WantOfMemory};
use std::marker::Model;

/// The number of a function in the diagram that gave it. Contracts see the number itself: 0 and 1
/// are the constants false and true, and the inner nodes have the numbers from 2 on.
#[derive(Clone, Copy, PartialEq, Eq, Hash)]
pub struct Dd {
    pub(crate) number: usize,
}

impl Model for Dd {
    ghost Value = { ℕ };

    ghost view = { λ d. d.number };

    ghost inverse = { λ n. record { number = n } };
}

impl Dd {
    // Is it the number of an inner node?
    pub(crate) fn is_inner(self) -> bool
        ensures { IsTrue result ↔ (2 ≤ self) }
    {
        self.number >= 2
    }
}

/// Why a diagram gave no number.
#[derive(Clone, Copy, Debug, PartialEq, Eq)]
pub enum DdFault {
    /// The diagram has as many inner nodes as its limit allows, `nodes`, and the answer needs
    /// another one.
    Full { nodes: u32 },
    /// Want of memory.
    Memory(Memory),
}

impl<M: WantOfMemory> From<M> for DdFault {
    ghost from_gives = { λ _ e. e ≡ faults.Memory _ };

    fn from(want: M) -> DdFault {
        DdFault::Memory(want.memory())
    }
}

// An inner node: it asks a variable and goes to `low` where that is false, to `high` where it is
// true.
#[derive(Clone, Copy, PartialEq, Eq, Hash)]
pub struct Node {
    pub variable: u32,
    pub low: Dd,
    pub high: Dd,
}

impl Model for Node {
    ghost Value = { Triple };

    ghost view = { λ n. record { variable = n.variable; low = n.low; high = n.high } };

    ghost inverse = { λ n. record { variable = n.variable; low = n.low; high = n.high } };
}

impl Node {
    // Where the node goes at a bit of its variable.
    pub(crate) fn side(self, bit: bool) -> Dd
        ensures { result ≡ side self bit }
    {
        if bit { self.high } else { self.low }
    }
}
