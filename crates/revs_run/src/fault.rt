ghost use Rattle.std.specs.Prelude.{◌≡◌};
ghost use Rattle.revs_run.specs.declared.fault.RunFault.TheVariants as faults;

use revc_base::{Memory, Place, WantOfMemory};
use revs_terms::Cause;

/// Why a program has no tape: its run is stuck, or memory is wanting.
#[derive(Clone, Copy)]
pub enum RunFault {
    /// The run is stuck for this cause, at the place of a term or part.
    Stuck { cause: Cause, at: Place },
    /// Want of memory.
    Memory(Memory),
}

impl RunFault {
    /// The run is stuck for this cause at this place.
    pub(crate) fn stuck(cause: Cause, at: Place) -> RunFault
        ensures { result ≡ faults.Stuck cause at }
    {
        RunFault::Stuck { cause, at }
    }
}

impl<M: WantOfMemory> From<M> for RunFault {
    ghost from_gives = { λ _ e. e ≡ faults.Memory _ };

    fn from(want: M) -> RunFault {
        RunFault::Memory(want.memory())
    }
}
