ghost use Rattle.revs_parser.specs.Limits.{LimitsAre};

/// The most bytes of a program text.
pub const MOST_BYTES: usize = 1_048_576;

/// The law of limits: what number each is. The function does nothing: its contract is the law.
pub fn limits_are()
    ensures { LimitsAre }
{}
