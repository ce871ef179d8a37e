ghost use Rattle.dependency_graph.specs.Uses.{LastUsesTellCuts};
ghost use Rattle.dependency_graph.specs.Widths.{GraphsAreNoWider};

// Each function here does nothing: its contract is the law.

/// The law of last uses: a step below j is in the cut at j exactly where its last use is at or
/// above j.
#[tactic(auto, using(crate::proofs::UseLemmas::last_uses_tell_cuts))]
pub fn last_uses_tell_cuts()
    ensures { LastUsesTellCuts }
{}

/// The law of width: no cut of a tape's graph has more members than the width of the tape, so it is
/// no wider.
pub fn graphs_are_no_wider()
    ensures { GraphsAreNoWider }
{}
