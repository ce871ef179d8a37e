// The limits of sums.
ghost use Rattle.bit_sums.specs.Limits.{LimitsAre};

/// The most bits of a factor.
pub const MOST_FACTOR_BITS: usize = 4;

/// The limits of this crate, as numbers.
pub fn limits_are()
    ensures { LimitsAre }
{}
