// The gates of a sum.
ghost use Rattle.std.specs.Prelude.{◌≡◌, ◌≢◌, ◌++◌, OnOk};
ghost use Rattle.std.specs.List.{AllByRecursion, flat_map};
ghost use Rattle.sum_toggles.specs.Toggles.{AreApart, IsPlacedBase, base_line, bit_gates};
ghost use Rattle.sum_toggles.specs.Toggles.{product_gates, sum_gates};
ghost use Rattle.bit_sums.specs.Sums.{bases_of, product_bases};
ghost use Rattle.sum_toggles.specs.inside.Steps.{CanAdd, CanFlip};

use crate::gates::{Lines, append_copies, push_copy, push_flip, push_one};
use crate::gathering::{gathered, own_base};
use bit_sums::{Product, Sum};
use dependency_graph::Base;
use mct_circuit::Gate;
use revc_base::Memory;

/// Appends the gates that add the value of a sum to the line `target`: for each bit a copy; for
/// each product the gathering of its factors, a flip under two lines, and the gathering reversed;
/// and a flip for the constant. `lines` holds the work line of each node that is held, `first` is
/// the first work line.
pub fn append_sum(
    gates: &mut Vec<Gate>,
    first: u32,
    lines: &[Option<u32>],
    target: u32,
    sum: &Sum,
) -> Result<(), Memory>
    requires placed { AllByRecursion (IsPlacedBase first lines.now) (bases_of sum.now) }
    requires apart { AreApart (base_line first lines.now) target (bases_of sum.now) }
    ensures { OnOk result (gates.new.items
        ≡ gates.old.items ++ sum_gates (base_line first lines.now) target sum.now) }
{
    let on = Lines { first, lines };
    append_bits(gates, on, target, sum.bits())?;
    append_products(gates, on, target, sum.products())?;
    push_one(gates, target, sum.one())
}

// Appends a copy of each bit.
fn append_bits(gates: &mut Vec<Gate>, on: Lines, target: u32, bits: &[Base]) -> Result<(), Memory>
    requires { AllByRecursion (CanAdd on.first on.lines.now target) bits.now }
    ensures { OnOk result (gates.new.items ≡ gates.old.items
        ++ bit_gates (base_line on.entry.first on.entry.lines.now) target bits.now) }
{
    for base in bits {
        push_copy(gates, on.line_of(*base), target)?;
    }
    Ok(())
}

fn append_products(
    gates: &mut Vec<Gate>,
    on: Lines,
    target: u32,
    products: &[Product],
) -> Result<(), Memory>
    requires { AllByRecursion (CanFlip on.first on.lines.now target) products.now }
    ensures { OnOk result (gates.new.items ≡ gates.old.items
        ++ flat_map (product_gates (base_line on.entry.first on.entry.lines.now) target)
        products.now) }
{
    for product in products {
        append_product(gates, on, target, product)?;
    }
    Ok(())
}

fn append_product(
    gates: &mut Vec<Gate>,
    on: Lines,
    target: u32,
    product: &Product,
) -> Result<(), Memory>
    requires { CanFlip on.first on.lines.now target product.now }
    ensures { OnOk result (gates.new.items ≡ gates.old.items
        ++ product_gates (base_line on.entry.first on.entry.lines.now) target product.now) }
{
    let mut both = gathered(*gates.allocator(), on, product)?;
    append_copies(gates, &both)?;
    let a = own_base(product.first(), product.second());
    let b = own_base(product.second(), product.first());
    push_flip(gates, &[on.line_of(a), on.line_of(b)], target)?;
    both.reverse();
    gates.append(&mut both)?;
    Ok(())
}
