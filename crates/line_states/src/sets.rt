// Sets of bits as rising lists.
ghost use Rattle.std.specs.Prelude.{◌≡◌, ◌∷◌, [], IfOk, IsTrue, ◌↔◌};
ghost use Rattle.line_states.specs.Gathers.{is_one};
ghost use Rattle.line_states.specs.States.{toggled_set};

use bit_sums::{Sum, apart};
use dependency_graph::Base;
use revc_base::Memory;
use std::alloc::Global;

// Whether two sets are one.
pub fn is_one(alloc: Global, left: &[Base], right: &[Base]) -> Result<bool, Memory>
    ensures { IfOk result (λ same. same ≡ is_one left.now right.now) }
{
    let bits = apart(alloc, left, right)?;
    Ok(bits.is_empty())
}

// A set with a node, and with the bits of its sum.
pub fn toggled_set(alloc: Global, set: &[Base], node: u32, sum: &Sum) -> Result<Vec<Base>, Memory>
    ensures { IfOk result (λ bits. bits.items ≡ toggled_set set.now node sum.now) }
{
    let bits = apart(alloc, set, sum.bits())?;
    apart(alloc, &bits, &[Base::Node(node)])
}

// Whether a set is that of one bit.
pub fn is_alone(set: &[Base], base: Base) -> bool
    ensures { IsTrue result ↔ (set.now ≡ base ∷ []) }
{
    set.len() == 1 && set[0] == base
}

// Whether a set is that of these two bits.
pub fn is_pair(set: &[Base], first: Base, second: Base) -> bool
    ensures { IsTrue result ↔ (set.now ≡ first ∷ second ∷ []) }
{
    set.len() == 2 && set[0] == first && set[1] == second
}
