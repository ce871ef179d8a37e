//! Facts on lists and bits that every crate may cite: the definitions in specs/, the lemmas in
//! proofs/.
#![tactic(auto)]

ghost use Rattle.list_facts.specs.Bits.{EachTestIsSettled};
ghost use Rattle.list_facts.specs.Lists.{RisingAreDifferent};

/// A test of lists of bits holds of all lists of a length, or fails at one of them. The function
/// does nothing: its contract is the law.
pub fn each_test_is_settled()
    ensures { EachTestIsSettled }
{}

/// Numbers of which each is less than all behind it are different. The function does nothing: its
/// contract is the law.
pub fn rising_are_different()
    ensures { RisingAreDifferent }
{}
