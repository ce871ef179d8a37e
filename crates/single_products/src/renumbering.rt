// Sums over the places of nodes.
ghost use Rattle.std.specs.Prelude.{◌≡◌, ◌≤◌, [], length, true, IfOk};
ghost use Rattle.bit_sums.specs.declared.limits.TheConstants.{MOST_FACTOR_BITS};
ghost use Rattle.bit_sums.specs.Sums.{AreAll, IsProductOver};
ghost use Rattle.single_products.specs.inside.Renumbering.{IsRenumbered, IsRenumberedFactor};
ghost use Rattle.single_products.specs.inside.Renumbering.{has_place, product_sum, renumbered};
ghost use Rattle.single_products.specs.inside.Renumbering.{with_first};

use bit_sums::{Factor, GrowingSum, Product, Sum, apart};
use dependency_graph::Base;
use revc_base::Memory;
use std::alloc::Global;

/// The constant and the bits of a sum, where the k-th node stands at the k-th place.
pub fn renumbered_bits(alloc: Global, places: &[u32], sum: &Sum) -> Result<GrowingSum, Memory>
    requires { AreAll (has_place places.now) sum.now.bits }
    ensures { IfOk result (IsRenumbered places.now (with_first 0 sum.now)) }
{
    let mut whole = GrowingSum::constant(alloc, sum.one());
    for base in sum.bits() {
        let bit = GrowingSum::bit(alloc, renumbered(places, *base))?;
        whole = whole.add(bit)?;
    }
    Ok(whole)
}

/// A product of a sum, where the k-th node stands at the k-th place: of bits alone where a factor
/// is within the other one.
pub fn renumbered_product(
    alloc: Global,
    places: &[u32],
    product: &Product,
) -> Result<GrowingSum, Memory>
    requires { IsProductOver (has_place places.now) product.now }
    ensures { IfOk result (IsRenumbered places.now (product_sum product.now)) }
{
    let first = renumbered_factor(alloc, places, product.first())?;
    let second = renumbered_factor(alloc, places, product.second())?;
    GrowingSum::times(&first, &second)
}

// The sum of some bits as a factor.
fn renumbered_factor(alloc: Global, places: &[u32], bits: &[Base]) -> Result<Factor, Memory>
    requires places { AreAll (has_place places.now) bits.now }
    requires few { length bits.now ≤ MOST_FACTOR_BITS }
    ensures { IfOk result (IsRenumberedFactor places.now bits.now) }
{
    let mut set = Vec::new(alloc);
    for base in bits {
        set = apart(alloc, &set, &[renumbered(places, *base)])?;
    }
    Ok(Factor::new(set, false))
}

fn renumbered(places: &[u32], base: Base) -> Base
    requires { has_place places.now base ≡ true }
    ensures { result ≡ renumbered places.now base }
{
    match base {
        Base::Input(_) => base,
        Base::Node(k) => Base::Node(places[k as usize]),
    }
}
