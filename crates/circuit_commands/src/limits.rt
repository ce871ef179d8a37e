ghost use Rattle.circuit_commands.specs.Limits.{LimitsAre};

/// The most bytes of a circuit text.
pub const MOST_CIRCUIT_BYTES: usize = 134_217_728;

/// The most gates of the split list of a circuit that is tidied.
pub const MOST_TIDIED_GATES: u64 = 65_536;

/// The limits are these numbers.
pub fn limits_are()
    ensures { LimitsAre }
{}
