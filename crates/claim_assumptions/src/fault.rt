// Why claims are not settled, where the first are taken for granted.
ghost use Rattle.std.specs.Prelude.{◌≡◌};
ghost use Rattle.claim_assumptions.specs.declared.fault.AssumptionFault.TheVariants as faults;

use revc_base::{Bits, Memory, WantOfMemory};

/// Why the claims of a tape are not settled. Claims are counted from 0.
#[derive(Debug, Drop)]
pub enum AssumptionFault {
    /// No input meets the claims that are taken for granted.
    NoInput,
    /// The claim is the first that fails on some input that meets these, and first on this one, in
    /// the order of the variables. The bits are given parameter by parameter.
    Broken { claim: u32, input: Bits },
    /// The claims through this one rest on more functions than the limit `nodes`: it is the last of
    /// those that are taken for granted, or one behind them.
    Diagram { claim: u32, nodes: u32 },
    /// Want of memory.
    Memory(Memory),
}

impl<M: WantOfMemory> From<M> for AssumptionFault {
    ghost from_gives = { λ _ e. e ≡ faults.Memory _ };

    fn from(want: M) -> AssumptionFault {
        AssumptionFault::Memory(want.memory())
    }
}
