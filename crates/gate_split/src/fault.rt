// Why a circuit was not split.
ghost use Rattle.std.specs.Prelude.{◌≡◌};
ghost use Rattle.gate_split.specs.declared.fault.SplitFault.TheVariants as faults;

use revc_base::{Memory, WantOfMemory};

/// Why a circuit was not split: a wide gate uses every line, there are more gates than the limit
/// allows, or memory was refused.
#[derive(Clone, Copy, Debug, PartialEq, Eq)]
pub enum SplitFault {
    /// The gate at this place, counted from 0, is the first that uses every line and wants an idle
    /// one.
    NoIdle { gate: u64 },
    Gates,
    Memory(Memory),
}

impl<M: WantOfMemory> From<M> for SplitFault {
    ghost from_gives = { λ _ e. e ≡ faults.Memory _ };

    fn from(want: M) -> SplitFault {
        SplitFault::Memory(want.memory())
    }
}
