//! The limits and the usual values of options.
ghost use Rattle.revc_words.specs.Limits.{LimitsAre};

/// The most digits of a number.
pub const MOST_DIGITS: usize = 7;

/// The most inner nodes that the diagrams of a program's claims may be allowed.
pub const MOST_NODES: u32 = 1_000_000;

/// The most claims that may be taken for granted, which is the most of a run.
pub const MOST_ASSUMED: u32 = 4_096;

/// The most lines of a circuit where no option says another number.
pub const USUAL_LINES: u32 = 4_096;

/// The most gates of a circuit where no option says another number.
pub const USUAL_GATES: u64 = 1_000_000;

/// The most inner nodes where no option says another number.
pub const USUAL_NODES: u32 = 100_000;

/// The limits are these numbers.
pub fn limits_are()
    ensures { LimitsAre }
{}
