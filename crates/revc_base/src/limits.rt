//! The limits of names.

ghost use Rattle.revc_base.specs.Limits.{LimitsAre};

/// The most bytes of a name.
pub const MOST_NAME_BYTES: usize = 64;

/// The law of limits: what number each is. The function does nothing: its contract is the law.
pub fn limits_are()
    ensures { LimitsAre }
{}
