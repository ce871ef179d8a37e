//! The limits of programs and of their runs.

ghost use Rattle.revs_tape.specs.Limits.{LimitsAre};

/// The most inputs of a program: the places of all its parameters together.
pub const MOST_INPUTS: u32 = 1_024;

/// The most outputs of a program.
pub const MOST_OUTPUTS: usize = 1_024;

/// The most writes of a tape: those of a run, and those that say on which inputs its claims are
/// looked at.
pub const MOST_WRITES: usize = 278_528;

/// The most claims of a run.
pub const MOST_CLAIMS: usize = 4_096;

/// The law of limits: what number each is. The function does nothing: its contract is the law.
pub fn limits_are()
    ensures { LimitsAre }
{}
