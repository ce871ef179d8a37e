//! Depths of gates that are joined, reversed and undone.
#![tactic(auto)]

ghost use Rattle.gate_chains.specs.Depths.{DepthsAreBounded};

/// The law of depths, by any weights of gates: that of two lists one behind the other is at most
/// the sum of theirs; a reversed list has that of the list; where no gate weighs anything, it is 0;
/// and that of gates, such others, and the gates reversed is at most twice that of the gates. The
/// function does nothing: its contract is the law.
pub fn depths_are_bounded()
    ensures { DepthsAreBounded }
{}
