// What the words of the command line ask for.
ghost use Rattle.std.specs.Prelude.{◌≡◌};
ghost use Rattle.revc_words.specs.Words.{first_word, order_of};

use crate::{Command, USUAL_GATES, USUAL_LINES, USUAL_NODES};
use arith_templates::Kind;
use circuit_plans::{Placing, Plan, Start};

/// A format of circuit files.
#[derive(Clone, Copy, PartialEq, Eq)]
pub enum Format {
    /// RevLib's `.real`.
    Real,
    /// OpenQASM 2.0.
    Qasm,
}

/// How it is decided that a circuit computes a program.
#[derive(Clone, Copy, PartialEq, Eq)]
pub enum Way {
    /// By decision diagrams, which tell exactly where it does not.
    Diagrams,
    /// By sums of products, which may not settle it.
    Sums,
    /// By sums, and where these do not settle it by diagrams.
    Both,
}

/// For what a circuit is tidied.
#[derive(Clone, Copy, PartialEq, Eq)]
pub enum Aim {
    /// Few gates.
    Gates,
    /// Few gates, and then a small depth.
    Depth,
    /// A small depth by another order of its gates alone.
    Order,
}

/// What is written of a program that computes with numbers.
#[derive(Clone, Copy, PartialEq, Eq)]
pub enum Write {
    /// Its text.
    Program,
    /// RevLib's `.real` file of its circuit.
    Real,
    /// The OpenQASM 2.0 file of its circuit.
    Qasm,
}

/// The values of all options: what is not given has its usual value.
#[derive(Clone, Copy)]
pub struct Values {
    /// Which plans are tried.
    pub plan: Plan,
    /// The most lines of the circuit, 1 to 16,384.
    pub lines: u32,
    /// The most gates of the circuit, 1 to 4,000,000.
    pub gates: u64,
    /// How many lines the circuit borrows, 0 to 64.
    pub borrow: u32,
    /// The most inner nodes of the diagrams, 1 to 1,000,000.
    pub nodes: u32,
    /// How many claims, from the first on, are taken for granted, 0 to 4,096.
    pub assume: u32,
    /// Where a circuit puts the outputs. `compile` is told of `InPlace` alone: which of the others
    /// holds is its plan's.
    pub outputs: Placing,
    /// How a circuit is verified.
    pub way: Way,
    /// The format of the circuit of a program.
    pub format: Format,
    /// The format of the circuit that is read.
    pub from: Format,
    /// The format in which a circuit that was read is written.
    pub to: Format,
    /// For what a circuit is tidied.
    pub aim: Aim,
    /// The constant by which a program multiplies, 1 to 9,999; 0 for one that does not.
    pub by: u32,
    /// What is written of a program that computes with numbers.
    pub write: Write,
}

impl Values {
    /// The usual values.
    pub const USUAL: Values = Values {
        plan: Plan::Auto,
        lines: USUAL_LINES,
        gates: USUAL_GATES,
        borrow: 0,
        nodes: USUAL_NODES,
        assume: 0,
        outputs: Placing::Added(Start::Zero),
        way: Way::Diagrams,
        format: Format::Real,
        from: Format::Real,
        to: Format::Qasm,
        aim: Aim::Gates,
        by: 0,
        write: Write::Program,
    };
}

/// What the words ask for: a command, the values of its options, and what its positional words
/// give. Contracts see it by `order_of`.
#[derive(Drop)]
pub struct Order {
    pub command: Command,
    pub values: Values,
    /// What a program computes of numbers; `Add` for a command that does not ask for it.
    pub kind: Kind,
    /// How many bits its numbers have, 1 to 200; 0 for a command that makes no program.
    pub number: u32,
    pub bits: Vec<String>,
}

impl Order {
    /// The first word of bits, or the empty one. It takes no memory.
    pub fn word(&self) -> &str
        ensures { result.now ≡ first_word (order_of self.now).bits }
    {
        match self.bits.as_slice() {
            [word, ..] => word.as_str(),
            [] => "",
        }
    }
}
