ghost use Rattle.claim_check.specs.Claims.{ClaimsEndInOneWay};
ghost use Rattle.claim_check.specs.Measures.{BudgetsAreNoGreater, OwnMeasuresAreWithin};
ghost use Rattle.claim_check.specs.Limits.{LimitsAre};
ghost use Rattle.claim_check.specs.Measures.{SettledGraphsAreWithin, TapesHaveMeasures};
ghost use Rattle.claim_check.specs.Measures.{SettledGraphsHaveMeasures};

// Each function here does nothing: its contract is the law.

/// The law of ends: for every limit, that all claims of a tape hold within it, that one breaks
/// first and that one passes it first exclude one another, and the claim and the input that break
/// and the claim that passes are the only ones.
pub fn claims_end_in_one_way()
    ensures { ClaimsEndInOneWay }
{}

/// The law of measures: each tape has measures, so what holds for all measures of a tape holds for
/// some.
pub fn tapes_have_measures()
    ensures { TapesHaveMeasures }
{}

/// The law of the measures of settled graphs: each has some.
pub fn settled_graphs_have_measures()
    ensures { SettledGraphsHaveMeasures }
{}

/// The limits of this crate, as numbers.
pub fn limits_are()
    ensures { LimitsAre }
{}

/// The law of settled graphs: each is within the measures of its tape, and within its own.
pub fn settled_graphs_are_within()
    ensures of_tape { SettledGraphsAreWithin }
    ensures own { OwnMeasuresAreWithin }
{}

/// The law of budgets: no budget number of a settled graph is greater than that of measures within
/// which it is. Those of its tape are such measures.
pub fn budgets_are_no_greater()
    ensures { BudgetsAreNoGreater }
{}
