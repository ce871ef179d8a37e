// The faults of commands, with their statuses.
ghost use Rattle.std.specs.Prelude.{◌≡◌};
ghost use Rattle.command_answers.specs.declared.fault.Fault.TheVariants as faults;
ghost use Rattle.command_answers.specs.Faults.{kind_text, status_of};

use revc_base::{Bits, Memory, Place, WantOfMemory};
use revs_terms::Cause;
use thiserror::Error;

/// Why a command did not end well. Each fault has a status and a line of its own, which `report`
/// writes; it carries what the line shows.
#[derive(Debug, Drop, Error)]
pub enum Fault {
    #[error("bad command line")]
    Usage,
    #[error("program refused")]
    Refused(Refusal),
    /// The claim with this number, counted from 1, fails on these bits. Its term is at the place.
    #[error("claim fails")]
    Claim { number: u32, at: Place, bits: Bits },
    /// With the claim of this number, counted from 1, the claims rest on more functions than the
    /// limit. Its term is at the place.
    #[error("diagrams over budget")]
    Diagram { number: u32, at: Place, limit: u32 },
    /// A program and a circuit rest on more functions than the limit.
    #[error("diagrams of a circuit over budget")]
    CircuitDiagram { limit: u32 },
    /// A circuit needs so many lines, more than the limit.
    #[error("lines over budget")]
    Lines { need: u32, limit: u32 },
    /// A circuit needs more gates than the limit.
    #[error("gates over budget")]
    Gates { limit: u64 },
    #[error("circuit refused")]
    Circuit(CircuitRefusal),
    /// The word of bits with this number, counted from 1, does not fit.
    #[error("bad bits")]
    BadBits { word: usize },
    /// The program has fewer outputs than inputs, whose place they are to take.
    #[error("program lacks outputs")]
    FewOutputs { inputs: u32, outputs: u32 },
    /// The circuit has so many lines, and needs more for a program and its borrowed lines.
    #[error("circuit lacks lines")]
    FewLines { lines: u32, need: u32 },
    /// The gate with this number, counted from 1, is no flip with at most two controls, all
    /// positive.
    #[error("gate is wide")]
    WideGate { number: u64 },
    /// The line with this number, counted from 1, ends on these bits as it should not.
    #[error("circuit differs")]
    Differs { line: u32, bits: Bits },
    /// The sums of products of a circuit do not tell whether it computes the program.
    #[error("circuit is not settled")]
    Unsettled,
    /// The source has no parting line.
    #[error("no parting line")]
    NoPart,
    /// No circuit was found that puts the outputs on the lines of the inputs.
    #[error("no circuit in place")]
    NoCircuit,
    /// On no input all claims hold that are taken for granted.
    #[error("no input meets the assumptions")]
    NoInput,
    #[error("read fault")]
    Read,
    #[error("write fault")]
    Write,
    #[error("out of memory")]
    Memory(Memory),
}

/// Why a program text is refused.
#[derive(Clone, Copy, Debug)]
pub enum Refusal {
    /// It has more than 1,048,576 bytes.
    TooLong,
    /// It is refused at this place.
    At(FaultKind, Place),
}

/// Why a circuit text is refused: a `.real` text at a line, counted from 1, an OpenQASM text at the
/// place of a token.
#[derive(Clone, Copy, Debug)]
pub enum CircuitRefusal {
    /// It has more than 134,217,728 bytes.
    TooLong,
    /// This line is the first that breaks a rule.
    Line { number: u32 },
    /// This line is the first that breaks a rule, and passes a limit.
    LineLimit { number: u32 },
    /// The token at this place is the first that breaks a rule.
    Token { at: Place },
    /// The token at this place is the first that breaks a rule, and passes a limit.
    TokenLimit { at: Place },
}

/// What is wrong at a place.
#[derive(Clone, Copy, Debug)]
pub enum FaultKind {
    BadByte,
    LongName,
    LongNumber,
    Syntax,
    Nesting,
    Inputs,
    Unbound,
    TwoParams,
    /// The run is stuck.
    Stuck(Cause),
}

impl Fault {
    /// The status with which the program ends.
    pub fn status(&self) -> u8
        ensures { result ≡ status_of self.now }
    {
        match self {
            Fault::Usage => 2,
            Fault::Refused(_) => 3,
            Fault::Claim { .. } => 4,
            Fault::Diagram { .. } => 5,
            Fault::CircuitDiagram { .. } => 5,
            Fault::Lines { .. } => 6,
            Fault::Gates { .. } => 7,
            Fault::Circuit(_) => 8,
            Fault::Read => 9,
            Fault::Write => 10,
            Fault::Memory(_) => 11,
            Fault::BadBits { .. } => 12,
            Fault::FewLines { .. } => 13,
            Fault::WideGate { .. } => 14,
            Fault::Differs { .. } => 15,
            Fault::NoPart => 16,
            Fault::Unsettled => 17,
            Fault::FewOutputs { .. } => 18,
            Fault::NoCircuit => 19,
            Fault::NoInput => 20,
        }
    }
}

impl FaultKind {
    /// The word for the kind in a line of standard error.
    pub fn text(self) -> &'static [u8]
        ensures { result.now ≡ kind_text self }
    {
        match self {
            FaultKind::BadByte => b"BadByte",
            FaultKind::LongName => b"LongName",
            FaultKind::LongNumber => b"LongNumber",
            FaultKind::Syntax => b"Syntax",
            FaultKind::Nesting => b"Nesting",
            FaultKind::Inputs => b"Inputs",
            FaultKind::Unbound => b"Unbound",
            FaultKind::TwoParams => b"TwoParams",
            FaultKind::Stuck(cause) => cause.word(),
        }
    }
}

impl<M: WantOfMemory> From<M> for Fault {
    ghost from_gives = { λ _ e. e ≡ faults.Memory _ };

    fn from(want: M) -> Fault {
        Fault::Memory(want.memory())
    }
}
