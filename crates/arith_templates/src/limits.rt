// The limits.
ghost use Rattle.arith_templates.specs.Limits.{LimitsAre};

/// The most bits of each number with which a program computes.
pub const MOST_BITS: u32 = 200;

/// The greatest constant by which a program multiplies.
pub const MOST_FACTOR: u32 = 9_999;

/// The law of limits: what number each is. The function does nothing: its contract is the law.
pub fn limits_are()
    ensures { LimitsAre }
{}
