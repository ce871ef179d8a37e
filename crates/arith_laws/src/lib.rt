//! What the texts of programs that compute with numbers compute: adders add, subtractors subtract,
//! comparators compare, incrementers add 1, and multipliers multiply by a constant.
#![tactic(auto)]

ghost use Rattle.arith_laws.specs.Computes.{AddersAdd, ComparatorsCompare, SubtractorsSubtract};
ghost use Rattle.arith_laws.specs.Computes.{IncrementersAddOne, MultipliersMultiply};

/// The text of an adder of two numbers of 1 to 200 bits is well formed, for a program without
/// claims with as many inputs as both numbers have bits, whose outputs are the bits of their sum on
/// every input, the least first. The function does nothing: its contract is the law.
pub fn adders_add()
    ensures { AddersAdd }
{}

/// The text of a subtractor of two numbers of 1 to 200 bits is well formed, for a program without
/// claims whose last output says whether the first number is less, and whose others are the bits of
/// the difference. The function does nothing: its contract is the law.
pub fn subtractors_subtract()
    ensures { SubtractorsSubtract }
{}

/// The text of a comparator of two numbers of 1 to 200 bits is well formed, for a program without
/// claims with as many inputs as both numbers have bits, whose one output is 1 exactly where the
/// first number is less. The function does nothing: its contract is the law.
pub fn comparators_compare()
    ensures { ComparatorsCompare }
{}

/// The law of incrementers: for each number of bits up to 200, the text is well formed for a
/// program that makes no claim, and whose outputs are its input and 1. The function does nothing:
/// its contract is the law.
pub fn incrementers_add_one()
    ensures { IncrementersAddOne }
{}

/// The law of multipliers: for each number of bits up to 200 and each constant from 1 to 9,999, the
/// text is well formed for a program that makes no claim, and whose outputs are its input times the
/// constant. The function does nothing: its contract is the law.
pub fn multipliers_multiply()
    ensures { MultipliersMultiply }
{}
