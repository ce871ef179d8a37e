ghost use Rattle.exclusive_sums.specs.Cubes.{MergingIsDetermined};

/// The law of merging: what the cubes are merged to is determined by them, so that the contract of
/// `merge` says which cubes it gives and in which order. The function does nothing: its contract is
/// the law.
pub fn determinacy()
    ensures { MergingIsDetermined }
{}
