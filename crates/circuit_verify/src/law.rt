// The laws of comparisons. Each function here does nothing: its contract is the law.
ghost use Rattle.circuit_verify.specs.Verdicts.{ComparisonsEndInOneWay, SaidOfTapes};

/// The law of ends: a circuit that agrees differs nowhere, narrow gates have no first wide one, and
/// the first wide gate, the first line that differs and its least bits are the only ones.
pub fn comparisons_end_in_one_way()
    ensures { ComparisonsEndInOneWay }
{}

/// The law of tapes: what is said of the settled graphs of two tapes, of a program and of a
/// premise, is said of the tapes, whose steps are their writes.
pub fn said_of_tapes()
    ensures { SaidOfTapes }
{}
