ghost use Rattle.std.specs.Prelude.{◌≡◌};
ghost use Rattle.plan_tools.specs.declared.stop.Stop.TheVariants as stops;

use revc_base::{Memory, WantOfMemory};

/// Why a planner ends without a plan.
#[derive(Clone, Copy)]
pub enum Stop {
    /// Its work is spent, a plan does not fit its limits, or it lost its way, as where a line is
    /// wanted and none is left. A planner proves nothing of its plans, so it may.
    GaveUp,
    /// Memory was refused.
    Memory(Memory),
}

impl<M: WantOfMemory> From<M> for Stop {
    ghost from_gives = { λ _ e. e ≡ stops.Memory _ };

    fn from(want: M) -> Stop {
        Stop::Memory(want.memory())
    }
}
