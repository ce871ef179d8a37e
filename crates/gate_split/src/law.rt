ghost use Rattle.gate_split.specs.Costs.{SplitCosts, NarrowStay, RoomyFlipsAreSplit};

/// The law of costs: a flip of `k` positive controls, at least 3, takes `4 * (k - 2)` gates where
/// `k - 2` lines are idle, and otherwise 10 for 4 controls and `8 * (k - 3)` for more; so never
/// more than `8 * k`. The function does nothing: its contract is the law.
pub fn split_costs()
    ensures { SplitCosts }
{}

/// The law of narrow gates: a split leaves them as they are, where they are within the limit, so it
/// refuses none of them. The function does nothing: its contract is the law.
pub fn narrow_stay()
    ensures { NarrowStay }
{}

/// The law of flips with room: flips that each have at most two controls or an idle line never want
/// one, and are split where the sum of their most gates is within the limit. A flip of `k` controls
/// becomes at most `10 * k + 1` gates. The function does nothing: its contract is the law.
pub fn roomy_flips_are_split()
    ensures { RoomyFlipsAreSplit }
{}
