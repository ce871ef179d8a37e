ghost use Rattle.revs_tape.specs.ClaimFunctions.{MembersAreCounted};
ghost use Rattle.revs_tape.specs.Claims.{ClaimsAreSettled};
ghost use Rattle.revs_tape.specs.Levels.{LevelsAreDetermined};
ghost use Rattle.revs_tape.specs.Monomials.{MonomialsAreDetermined, TapeMonomialsAreDetermined};
ghost use Rattle.revs_tape.specs.Polynomials.{PolynomialsAreUnique};
ghost use Rattle.revs_tape.specs.VariableOrders.{EachInputIsOneVariable};

// Each function here does nothing: its contract is the law.

/// The law of the functions on which the first claims of a tape rest: for every limit the set of
/// them has more members, or at most that many, and never both.
pub fn claim_functions()
    ensures { MembersAreCounted }
{}

/// The law of polynomials: two of them with the same value on every assignment are the same set of
/// monomials, so a function has one polynomial.
pub fn one_polynomial()
    ensures { PolynomialsAreUnique }
{}

/// The law of monomials: each function of some inputs has exactly one set of monomials, and so has
/// each input and each write of a tape.
pub fn one_set_of_monomials()
    ensures functions { MonomialsAreDetermined }
    ensures tapes { TapeMonomialsAreDetermined }
{}

/// The law of levels: for every size of a block, each number of writes has exactly one number of
/// levels.
pub fn one_number_of_levels()
    ensures { LevelsAreDetermined }
{}

/// The law of the variables: each input of a program stands exactly once in their order.
pub fn each_input_is_one_variable()
    ensures { EachInputIsOneVariable }
{}

/// The law of claims: each claim of a tape holds on every input, or exactly one input is the least
/// that breaks it.
pub fn each_claim_is_settled()
    ensures { ClaimsAreSettled }
{}
