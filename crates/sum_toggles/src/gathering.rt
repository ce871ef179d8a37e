// The factors of a product, each gathered on the line of a bit that the other lacks.
ghost use Rattle.std.specs.Prelude.{◌≡◌, ◌≢◌, ◌++◌, ◌∷◌, IfOk, OnOk, false, if◌then◌else◌};
ghost use Rattle.std.specs.List.{AllByRecursion};
ghost use Rattle.dependency_graph.specs.Folds.{is_same};
ghost use Rattle.sum_toggles.specs.Toggles.{IsPlacedBase, base_line, both_gathered, gather};
ghost use Rattle.sum_toggles.specs.Toggles.{gathers, has, own_base};
ghost use Rattle.sum_toggles.specs.inside.Steps.{HaveOwnLines, IsGathered};

use crate::gates::{Lines, push_copy};
use bit_sums::Product;
use dependency_graph::Base;
use mct_circuit::Gate;
use revc_base::Memory;
use std::alloc::Global;

// The last of the bits that the other factor lacks.
pub fn own_base(bits: &[Base], other: &[Base]) -> Base
    ensures { result ≡ own_base bits.now other.now }
{
    let mut own = Base::Input(0);
    for base in bits {
        own = later_own(own, *base, other);
    }
    own
}

fn later_own(own: Base, base: Base, other: &[Base]) -> Base
    ensures { result ≡ if has other.now base then own else base }
{
    if has(other, base) { own } else { base }
}

fn has(bits: &[Base], base: Base) -> bool
    ensures { result ≡ has bits.now base }
{
    bits.iter().any(|other| base == *other)
}

// The gates that gather both factors.
pub fn gathered(alloc: Global, on: Lines, product: &Product) -> Result<Vec<Gate>, Memory>
    requires { HaveOwnLines on.first on.lines.now product.now }
    ensures { IfOk result (λ gates. gates.items
        ≡ both_gathered (base_line on.entry.first on.entry.lines.now) product.now) }
{
    let (a, b) = (product.first(), product.second());
    let mut gates = Vec::new(alloc);
    gather_all(&mut gates, on, a, own_base(a, b))?;
    gather_all(&mut gates, on, b, own_base(b, a))?;
    Ok(gates)
}

// Adds every other bit to the line of the own one.
fn gather_all(gates: &mut Vec<Gate>, on: Lines, bits: &[Base], own: Base) -> Result<(), Memory>
    requires { IsGathered on.first on.lines.now own bits.now }
    ensures { OnOk result (gates.new.items
        ≡ gates.old.items ++ gathers (base_line on.entry.first on.entry.lines.now) own bits.now) }
{
    for base in bits {
        gather(gates, on, *base, own)?;
    }
    Ok(())
}

// Adds a bit to the line of the own one, unless it is that one.
fn gather(gates: &mut Vec<Gate>, on: Lines, base: Base, own: Base) -> Result<(), Memory>
    requires placed { IsPlacedBase on.first on.lines.now base }
    requires own { IsPlacedBase on.first on.lines.now own }
    requires apart { base ≢ own
        → base_line on.first on.lines.now base ≢ base_line on.first on.lines.now own }
    ensures { OnOk result (gates.new.items
        ≡ gates.old.items ++ gather (base_line on.entry.first on.entry.lines.now) own base) }
{
    if base == own {
        return Ok(());
    }
    push_copy(gates, on.line_of(base), on.line_of(own))
}
