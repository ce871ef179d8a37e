// Why sums do not verify a circuit.
ghost use Rattle.std.specs.Prelude.{◌≡◌};
ghost use Rattle.sum_verify.specs.declared.fault.FormsFault.TheVariants as faults;
ghost use Rattle.sum_verify.specs.inside.Faults.{forms_fault};

use crate::Unsettled;
use product_sums::ProductsFault;
use revc_base::{Memory, WantOfMemory};
use std::alloc::{AllocError, AllocFailed};

/// Why a circuit that can be compared is not verified by sums of products.
#[derive(Drop)]
pub enum SumsFault<'s> {
    /// The sums do not tell: some line is not known to end as it should, or a limit is passed.
    Unsettled(Unsettled<'s>),
    /// Want of memory.
    Memory(Memory),
}

// Why the forms of nodes and lines do not verify a circuit.
#[derive(Clone, Copy, Debug, PartialEq, Eq)]
pub enum FormsFault {
    Unsettled,
    Memory(Memory),
}

impl From<ProductsFault> for FormsFault {
    ghost from_gives = { λ products fault. fault ≡ forms_fault products };

    fn from(fault: ProductsFault) -> FormsFault {
        match fault {
            ProductsFault::Limit => FormsFault::Unsettled,
            ProductsFault::Memory(memory) => FormsFault::Memory(memory),
        }
    }
}

impl From<Memory> for FormsFault {
    ghost from_gives = { λ _ fault. fault ≡ faults.Memory _ };

    fn from(want: Memory) -> FormsFault {
        FormsFault::Memory(want)
    }
}

impl From<AllocError> for FormsFault {
    ghost from_gives = { λ _ fault. fault ≡ faults.Memory _ };

    fn from(want: AllocError) -> FormsFault {
        FormsFault::Memory(want.memory())
    }
}

impl<T: Drop> From<AllocFailed<T>> for FormsFault {
    ghost from_gives = { λ _ fault. fault ≡ faults.Memory _ };

    fn from(want: AllocFailed<T>) -> FormsFault {
        FormsFault::Memory(want.memory())
    }
}
