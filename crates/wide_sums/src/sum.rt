// Sums of bits and of products of any two sums of bits.
ghost use Rattle.std.specs.Prelude.{◌≡◌, ◌∷◌, [], IfOk, IfSome, OnOk, Some, slice_get};
ghost use Rattle.bit_sums.specs.Sums.{SumView};
ghost use Rattle.wide_sums.specs.Wide.{IsAdded};
ghost use Rattle.wide_sums.specs.inside.Toggles.{IsToggled};

use crate::WideProduct;
use bit_sums::{Product, Sum, apart};
use dependency_graph::Base;
use revc_base::Memory;
use std::alloc::Global;
use std::marker::Model;

/// The exclusive sum of some bits, of products of two sums of bits, and of the constant 1 where it
/// has that.
#[derive(Drop)]
pub struct WideSum {
    bits: Vec<Base>,
    products: Vec<WideProduct>,
    one: bool,
}

impl Model for WideSum {
    ghost Value = { SumView };

    ghost view = { λ s. record { bits = s.bits.items; products = s.products.items; one = s.one } };
}

impl WideSum {
    /// The sum of these. It takes no memory.
    pub fn new(bits: Vec<Base>, products: Vec<WideProduct>, one: bool) -> WideSum
        ensures { result ≡ record { bits = bits.items; products = products.items; one = one } }
    {
        WideSum {
            bits,
            products,
            one,
        }
    }

    /// The same sum.
    pub fn of(alloc: Global, sum: &Sum) -> Result<WideSum, Memory>
        ensures { IfOk result (λ wide. wide ≡ sum.now) }
    {
        let bits = Vec::from_slice(alloc, sum.bits())?;
        let products = widened(alloc, sum.products())?;
        Ok(WideSum::new(bits, products, sum.one()))
    }

    /// The same sum once more.
    pub fn copy(&self, alloc: Global) -> Result<WideSum, Memory>
        ensures { IfOk result (λ wide. wide ≡ self.now) }
    {
        let bits = Vec::from_slice(alloc, self.bits())?;
        let products = copied(alloc, self.products())?;
        Ok(WideSum::new(bits, products, self.one()))
    }

    /// The bits. It takes no memory.
    pub fn bits(&self) -> &[Base]
        ensures { result.now ≡ self.now.bits }
    {
        &self.bits
    }

    /// The products. It takes no memory.
    pub fn products(&self) -> &[WideProduct]
        ensures { result.now ≡ self.now.products }
    {
        &self.products
    }

    /// Whether it has the constant 1. It takes no memory.
    pub fn one(&self) -> bool
        ensures { result ≡ self.now.one }
    {
        self.one
    }

    /// The sum of both: what stands in both goes out.
    pub fn plus(&self, alloc: Global, other: &WideSum) -> Result<WideSum, Memory>
        ensures { IfOk result (IsAdded self.now other.now) }
    {
        let bits = apart(alloc, self.bits(), other.bits())?;
        let products = toggled(alloc, self.products(), other.products())?;
        Ok(WideSum::new(bits, products, self.one() != other.one()))
    }
}

// The same products.
fn widened(alloc: Global, products: &[Product]) -> Result<Vec<WideProduct>, Memory>
    ensures { IfOk result (λ wide. wide.items ≡ products.now) }
{
    let mut wide = Vec::with_capacity(alloc, products.len())?;
    for product in products {
        wide.push(WideProduct::of(alloc, product)?)?;
    }
    Ok(wide)
}

// Some products, with each of others toggled.
fn toggled(
    alloc: Global,
    products: &[WideProduct],
    others: &[WideProduct],
) -> Result<Vec<WideProduct>, Memory>
    ensures { IfOk result (λ all. IsToggled others.now products.now all.items) }
{
    let mut all = copied(alloc, products)?;
    for other in others {
        toggle(alloc, &mut all, other)?;
    }
    Ok(all)
}

// The same products once more.
fn copied(alloc: Global, products: &[WideProduct]) -> Result<Vec<WideProduct>, Memory>
    ensures { IfOk result (λ all. all.items ≡ products.now) }
{
    let mut all = Vec::with_capacity(alloc, products.len())?;
    for product in products {
        all.push(product.copy(alloc)?)?;
    }
    Ok(all)
}

// A product goes out where it stands, and comes in where it does not.
fn toggle(
    alloc: Global,
    products: &mut Vec<WideProduct>,
    product: &WideProduct,
) -> Result<(), Memory>
    ensures { OnOk result (IsToggled (product.now ∷ []) products.old.items products.new.items) }
{
    if let Some(place) = place_of(products, product) {
        drop(products.swap_remove(place));
        return Ok(());
    }
    products.push(product.copy(alloc)?)?;
    Ok(())
}

// A place where a product stands.
fn place_of(products: &[WideProduct], product: &WideProduct) -> Option<usize>
    ensures { IfSome result (λ place. slice_get products.now place ≡ Some product.now) }
{
    for (place, other) in products.iter().enumerate() {
        if other == product {
            return Some(place);
        }
    }
    None
}
