// The laws of numbers.
ghost use Rattle.arith_templates.specs.Numbers.{NumbersAreSums, DigitsAreBinary};
ghost use Rattle.arith_templates.specs.Places.{SumsAdd, DifferencesSubtract, IncrementsAdd};
ghost use Rattle.arith_templates.specs.Places.{ProductsMultiply};

// Each function here does nothing: its contract is the law.

/// The law of numbers: the number of a list of bits is the sum of the powers of 2 at its places
/// that hold 1.
pub fn numbers_are_sums()
    ensures { NumbersAreSums }
{}

/// The law of digits: those of a number above 0 have its number, and the last of them is 1.
pub fn digits_are_binary()
    ensures { DigitsAreBinary }
{}

/// The law of sums: a ripple-carry adder's bits are those of the sum (Knuth, The Art of Computer
/// Programming, volume 4A, section 7.1.2).
pub fn sums_add()
    ensures { SumsAdd }
{}

/// The law of differences: a ripple-borrow subtractor's bits are those of the difference, and its
/// last borrow says whether the first number is less (Knuth, as above).
pub fn differences_subtract()
    ensures { DifferencesSubtract }
{}

/// The law of increments: a chain of half adders adds the carry into its first place.
pub fn increments_add()
    ensures { IncrementsAdd }
{}

/// The law of products: shifting and adding by the binary digits of a number multiplies by it.
pub fn products_multiply()
    ensures { ProductsMultiply }
{}
