// Where the sums of settled nodes stand, and how they are used.
ghost use Rattle.std.specs.Prelude.{◌≡◌, ◌<◌, ◌⊎◌, length, slice_get, Some, IfOk};
ghost use Rattle.bit_sums.specs.Sums.{SumView};
ghost use Rattle.sum_graph.specs.inside.Walks.{CanSum, HasFactor, IsCopied, IsFactorOf};
ghost use Rattle.sum_graph.specs.inside.Walks.{IsMovedOut, IsNodeSum, IsStanding, IsStandingNode};
ghost use Rattle.sum_graph.specs.inside.Walks.{IsTaken};

use bit_sums::{Factor, GrowingSum};
use dependency_graph::{Base, Node};
use revc_base::Memory;
use std::alloc::Global;
use std::mem::replace;

/// Where the sum of a settled node stands.
#[derive(Drop)]
pub enum Slot {
    /// It was moved into the sum that used it.
    Moved,
    /// It is used once, and will be moved.
    Sum(GrowingSum),
    /// It is shared, and short, or stands for a node of the lean graph.
    Factor(Factor),
}

/// The sum of a node, made of the sums of its operands.
pub fn sum_of(alloc: Global, slots: &mut Vec<Slot>, node: Node) -> Result<GrowingSum, Memory>
    requires { CanSum slots.old.items node }
    ensures { IfOk result (IsNodeSum node slots.old.items slots.new.items) }
{
    match node {
        Node::Not(a) => {
            let mut sum = take(alloc, slots, a)?;
            sum.negate();
            Ok(sum)
        }
        Node::Xor(a, b) => {
            let left = take(alloc, slots, a)?;
            let right = take(alloc, slots, b)?;
            left.add(right)
        }
        Node::And(a, b) => {
            let left = factor_of(alloc, slots, a)?;
            let right = factor_of(alloc, slots, b)?;
            GrowingSum::times(&left, &right)
        }
    }
}

/// The sum that stands for a base: a copy where it is shared, else the sum itself.
pub fn take(alloc: Global, slots: &mut Vec<Slot>, base: Base) -> Result<GrowingSum, Memory>
    requires { IsStanding slots.old.items base }
    ensures { IfOk result (IsTaken base slots.old.items slots.new.items) }
{
    match base {
        Base::Input(_) => GrowingSum::bit(alloc, base),
        Base::Node(k) => take_node(slots, k),
    }
}

// The sum of a node: a copy of a factor, else the sum, which is moved out of its slot.
fn take_node(slots: &mut Vec<Slot>, k: u32) -> Result<GrowingSum, Memory>
    requires { IsStandingNode slots.old.items k }
    ensures { IfOk result (λ sum. IsCopied k slots.old.items slots.new.items sum
        ⊎ IsMovedOut k slots.old.items slots.new.items sum) }
{
    if let Slot::Factor(factor) = &slots[k as usize] {
        return GrowingSum::of(factor);
    }
    match replace(&mut slots[k as usize], Slot::Moved) {
        Slot::Sum(sum) => Ok(sum),
        _ => unreachable!(),
    }
}

// The factor that stands for a base.
fn factor_of(alloc: Global, slots: &[Slot], base: Base) -> Result<Factor, Memory>
    requires { HasFactor slots.now base }
    ensures { IfOk result (IsFactorOf slots.now base) }
{
    match base {
        Base::Input(_) => Factor::bit(alloc, base, false),
        Base::Node(k) => match &slots[k as usize] {
            Slot::Factor(factor) => factor.copy(),
            _ => unreachable!(),
        },
    }
}
