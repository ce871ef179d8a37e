//! The limits of terms and of their runs.

ghost use Rattle.revs_terms.specs.Limits.{LimitsAre};

/// The most levels of a term.
pub const MOST_LEVELS: u32 = 100;

/// The greatest depth at which a term is run.
pub const MOST_DEPTH: u32 = 400;

/// The most work of a run.
pub const MOST_WORK: u32 = 16_777_216;

/// The most writes of a run.
pub const MOST_RUN_WRITES: usize = 262_144;

/// The most places of a register.
pub const MOST_PLACES: usize = 4_096;

/// The greatest value of a number; its negative is the least.
pub const MOST_NUMBER: u32 = 9_999;

/// The law of limits: what number each is. The function does nothing: its contract is the law.
pub fn limits_are()
    ensures { LimitsAre }
{}
