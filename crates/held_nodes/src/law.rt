ghost use Rattle.held_nodes.specs.Plans.{TogglesAreNarrow};

/// The law of narrow toggles: a forward part of toggles alone has flips of at most two controls,
/// all positive, and so has its finished plan. The function does nothing: its contract is the law.
pub fn toggles_are_narrow()
    ensures { TogglesAreNarrow }
{}
