// Sets of bits as rising lists.
ghost use Rattle.std.specs.Prelude.{◌≡◌, IfOk, OnOk, ◌++◌, Bool};
ghost use Rattle.bit_sums.specs.Bits.{AreRising, apart, base_cmp};
ghost use Rattle.bit_sums.specs.Sums.{AreAll, xor_by};
ghost use Rattle.bit_sums.specs.inside.Steps.{IsRisingOf, lesser};
ghost use Rattle.dependency_graph.specs.declared.node.Base.{Base};

use dependency_graph::Base;
use revc_base::Memory;
use std::alloc::Global;
use std::cmp::Ordering;

/// The bits of one set and not of the other, in time linear in both.
pub fn apart(alloc: Global, left: &[Base], right: &[Base]) -> Result<Vec<Base>, Memory>
    ensures { IfOk result (λ bits. bits.items ≡ apart left.now right.now) }
{
    let mut bits = Vec::new(alloc);
    let (mut i, mut j) = (0, 0);
    while i < left.len() && j < right.len() {
        let order = left[i].cmp(&right[j]);
        push_lesser(&mut bits, left[i], right[j], order)?;
        i += usize::from(order.is_le());
        j += usize::from(order.is_ge());
    }
    bits.extend_from_slice(&left[i..])?;
    bits.extend_from_slice(&right[j..])?;
    Ok(bits)
}

// Appends the lesser of two bits, and none where they are one.
fn push_lesser(bits: &mut Vec<Base>, x: Base, y: Base, order: Ordering) -> Result<(), Memory>
    ensures { OnOk result (bits.new.items ≡ bits.old.items ++ lesser x y order) }
{
    match order {
        Ordering::Less => {
            bits.push(x)?;
            Ok(())
        }
        Ordering::Greater => {
            bits.push(y)?;
            Ok(())
        }
        Ordering::Equal => Ok(()),
    }
}

/// The set of the bits that stand an odd number of times in a list: the sum of both its halves.
pub fn rising(alloc: Global, bits: &[Base]) -> Result<Vec<Base>, Memory>
    ensures { IfOk result (λ rising. IsRisingOf bits.now rising.items) }
{
    if bits.len() < 2 {
        return Ok(Vec::from_slice(alloc, bits)?);
    }
    let (front, back) = bits.split_at(bits.len() / 2);
    let front = rising(alloc, front)?;
    let back = rising(alloc, back)?;
    apart(alloc, &front, &back)
}
