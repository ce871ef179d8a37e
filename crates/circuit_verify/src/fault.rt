// Why a circuit is not verified.
ghost use Rattle.std.specs.Prelude.{◌≡◌};
ghost use Rattle.circuit_verify.specs.declared.fault.VerifyFault.TheVariants as faults;
ghost use Rattle.circuit_verify.specs.Verdicts.{verify_fault};

use decision_diagram::DdFault;
use revc_base::{Bits, Memory, WantOfMemory};
use std::alloc::{AllocError, AllocFailed};

/// Why a circuit cannot be compared with a program. Gates are counted from 0.
#[derive(Clone, Copy, Debug, PartialEq, Eq)]
pub enum NotComparable {
    /// The program has fewer outputs than inputs, whose place they are to take.
    Outputs { inputs: u32, outputs: u32 },
    /// The circuit has fewer lines than `need`: the input lines, the output lines and the borrowed
    /// ones.
    Lines { need: u32 },
    /// The gate is the first that is no flip with at most two controls, all positive.
    Gate { gate: u64 },
}

/// Why a circuit that can be compared is not verified against a program. Lines are counted from 0.
#[derive(Debug, Drop)]
pub enum VerifyFault {
    /// The nodes of the program and of the premise, and the lines of the circuit, have more
    /// functions than the limit `nodes`, with their first variables fixed and without constants.
    Diagram { nodes: u32 },
    /// The line is the first that ends with another bit than it should on an input that is looked
    /// at, and the bits are the least on which it does, in the order of the variables. They are
    /// given parameter by parameter, and then for the borrowed lines.
    Differs { line: u32, bits: Bits },
    /// Want of memory.
    Memory(Memory),
}

impl From<Memory> for VerifyFault {
    ghost from_gives = { λ _ e. e ≡ faults.Memory _ };

    fn from(want: Memory) -> VerifyFault {
        VerifyFault::Memory(want)
    }
}

impl From<DdFault> for VerifyFault {
    ghost from_gives = { λ dd fault. fault ≡ verify_fault dd };

    fn from(fault: DdFault) -> VerifyFault {
        match fault {
            DdFault::Full { nodes } => VerifyFault::Diagram { nodes },
            DdFault::Memory(memory) => VerifyFault::Memory(memory),
        }
    }
}

impl From<AllocError> for VerifyFault {
    ghost from_gives = { λ _ e. e ≡ faults.Memory _ };

    fn from(want: AllocError) -> VerifyFault {
        VerifyFault::Memory(want.memory())
    }
}

impl<T: Drop> From<AllocFailed<T>> for VerifyFault {
    ghost from_gives = { λ _ e. e ≡ faults.Memory _ };

    fn from(want: AllocFailed<T>) -> VerifyFault {
        VerifyFault::Memory(want.memory())
    }
}
