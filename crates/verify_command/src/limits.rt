// The limit of a source with a program and a circuit.
ghost use Rattle.verify_command.specs.Limits.{LimitsAre};

/// The most bytes of a source with a program and a circuit: as many as both parts may have, and
/// those of a parting line.
pub const MOST_SOURCE_BYTES: usize = 135_266_309;

/// The limit is this number.
pub fn limits_are()
    ensures { LimitsAre }
{}
