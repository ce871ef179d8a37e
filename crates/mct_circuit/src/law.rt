ghost use Rattle.mct_circuit.specs.Gates.{ReversedUndoes};
ghost use Rattle.mct_circuit.specs.Laws.{FlipsSet, MoreLinesStay, Uncomputes, WeightsAreKept};

// Each function here does nothing: its contract is the law.

/// The law of reversal: each flip and each swap is its own inverse, so a list of gates followed by
/// its reverse is the identity, and so is the reverse followed by the list.
pub fn reversal()
    ensures { ReversedUndoes }
{}

/// The law of flips: a flip sets its target to the exclusive or of the target's bit and of whether
/// all controls are met.
pub fn flips_set()
    ensures { FlipsSet }
{}

/// The law of more lines: gates on the first lines leave the bits of lines behind them as they are.
pub fn more_lines_stay()
    ensures { MoreLinesStay }
{}

/// The law of compute, copy, uncompute: where gates take s to u and s' to u', and copying takes u
/// to u', these gates, the copying and these gates reversed take s to s' (Bennett, Logical
/// reversibility of computation, 1973).
pub fn uncomputes()
    ensures { Uncomputes }
{}

/// The law of weights: each gate weighs at least 1, and a reversed list weighs what the list does.
pub fn weights_are_kept()
    ensures { WeightsAreKept }
{}
