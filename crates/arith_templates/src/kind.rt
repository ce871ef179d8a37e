// What a program computes.

/// What a program computes of numbers of n bits, each given with its least bit first.
#[derive(Clone, Copy, PartialEq, Eq)]
pub enum Kind {
    /// The sum of two numbers, in n + 1 bits.
    Add,
    /// The difference of two numbers in n bits, and a bit that says whether the first is less;
    /// where it is, 2^n is added.
    Sub,
    /// One bit: whether the first of two numbers is less.
    Less,
    /// A number and 1, in n + 1 bits.
    Inc,
    /// A number times a constant, in n bits and one for each binary digit of the constant.
    Mul,
}
