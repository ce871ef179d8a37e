// Why claims are not settled.
ghost use Rattle.std.specs.Prelude.{◌≡◌};
ghost use Rattle.claim_check.specs.declared.fault.ClaimFault.TheVariants as faults;

use revc_base::{Bits, Memory, WantOfMemory};

/// Why the claims of a tape are not settled. Claims are counted from 0.
#[derive(Debug, Drop)]
pub enum ClaimFault {
    /// The claim is the first that fails on some input, and first on this one, in the order of the
    /// variables. The bits are given parameter by parameter.
    Broken { claim: u32, input: Bits },
    /// The claims through this one rest on more functions than the limit `nodes`; those before it
    /// hold on all inputs, and rest on no more.
    Diagram { claim: u32, nodes: u32 },
    /// Want of memory.
    Memory(Memory),
}

impl<M: WantOfMemory> From<M> for ClaimFault {
    ghost from_gives = { λ _ e. e ≡ faults.Memory _ };

    fn from(want: M) -> ClaimFault {
        ClaimFault::Memory(want.memory())
    }
}
