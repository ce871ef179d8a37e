ghost use Rattle.claim_assumptions.specs.Laws.{AssumptionsAreMet, ClaimsAreAsMany};
ghost use Rattle.claim_assumptions.specs.Laws.{ClaimsAreRestricted, SettlingIsMeant};
ghost use Rattle.claim_assumptions.specs.Settling.{AssumptionsEndInOneWay};

// Each function here does nothing: its contract is the law.

/// The law of the bit: on every input it tells whether the claims that are taken for granted hold.
pub fn assumptions_are_met()
    ensures { AssumptionsAreMet }
{}

/// The law of the claims: each of them, on the tape that looks at some inputs alone, holds where
/// the tape's holds or those that are taken for granted do not; there are as many.
pub fn claims_are_restricted()
    ensures claims { ClaimsAreRestricted }
    ensures count { ClaimsAreAsMany }
{}

/// The law of settling: what it says of the two tapes is so of the claims on the inputs that are
/// looked at.
pub fn settling_is_meant()
    ensures { SettlingIsMeant }
{}

/// The law of ends: no input meets the claims that are taken for granted, all others hold, one
/// breaks first, or one passes the limit first. These exclude one another, and the claim and the
/// input that break and the claim that passes are the only ones.
pub fn assumptions_end_in_one_way()
    ensures { AssumptionsEndInOneWay }
{}
