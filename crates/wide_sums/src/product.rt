// Products of any two sums of bits.
ghost use Rattle.std.specs.Prelude.{◌≡◌, IfOk};
ghost use Rattle.bit_sums.specs.Sums.{ProductView};

use bit_sums::Product;
use dependency_graph::Base;
use revc_base::{Key, Memory};
use std::alloc::Global;
use std::marker::Model;

/// The product of two sums of bits.
#[derive(PartialEq, Drop)]
pub struct WideProduct {
    first: Key<Base>,
    second: Key<Base>,
}

impl Model for WideProduct {
    ghost Value = { ProductView };

    ghost view = { λ p. record { first = p.first; second = p.second } };

    ghost inverse = { λ p. record { first = p.first; second = p.second } };
}

impl WideProduct {
    /// The product of two sums. It takes no memory.
    pub fn new(first: Vec<Base>, second: Vec<Base>) -> WideProduct
        ensures { result ≡ record { first = first.items; second = second.items } }
    {
        WideProduct {
            first: Key::new(first),
            second: Key::new(second),
        }
    }

    /// The same product.
    pub fn of(alloc: Global, product: &Product) -> Result<WideProduct, Memory>
        ensures { IfOk result (λ wide. wide ≡ product.now) }
    {
        let first = Vec::from_slice(alloc, product.first())?;
        let second = Vec::from_slice(alloc, product.second())?;
        Ok(WideProduct::new(first, second))
    }

    /// The same product once more.
    pub fn copy(&self, alloc: Global) -> Result<WideProduct, Memory>
        ensures { IfOk result (λ wide. wide ≡ self.now) }
    {
        let first = Vec::from_slice(alloc, self.first())?;
        let second = Vec::from_slice(alloc, self.second())?;
        Ok(WideProduct::new(first, second))
    }

    /// The bits of the first factor. It takes no memory.
    pub fn first(&self) -> &[Base]
        ensures { result.now ≡ self.now.first }
    {
        self.first.items()
    }

    /// The bits of the second factor. It takes no memory.
    pub fn second(&self) -> &[Base]
        ensures { result.now ≡ self.now.second }
    {
        self.second.items()
    }
}
