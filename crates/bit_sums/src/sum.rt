// Sums that are finished.
ghost use Rattle.std.specs.Prelude.{◌≡◌, IfOk, false};
ghost use Rattle.bit_sums.specs.Bits.{AreRising};
ghost use Rattle.bit_sums.specs.Growing.{IsFactorOrLong};
ghost use Rattle.bit_sums.specs.Sums.{SumView};

use crate::{Factor, MOST_FACTOR_BITS, Product};
use dependency_graph::Base;
use revc_base::{Key, Memory};
use std::marker::Model;

/// The exclusive sum of some bits, of some products, and of the constant 1 where it has that.
#[derive(PartialEq, Eq, Hash, Drop)]
pub struct Sum {
    bits: Key<Base>,
    products: Key<Product>,
    one: bool,
}

impl Model for Sum {
    ghost Value = { SumView };

    ghost view = { λ s. record { bits = s.bits; products = s.products; one = s.one } };

    ghost inverse = { λ s. record { bits = s.bits; products = s.products; one = s.one } };
}

impl Sum {
    /// The sum of these. It takes no memory.
    pub fn new(bits: Vec<Base>, products: Vec<Product>, one: bool) -> Sum
        ensures { result ≡ record { bits = bits.items; products = products.items; one = one } }
    {
        Sum {
            bits: Key::new(bits),
            products: Key::new(products),
            one,
        }
    }

    /// The bits. It takes no memory.
    pub fn bits(&self) -> &[Base]
        ensures { result.now ≡ self.now.bits }
    {
        self.bits.items()
    }

    /// The products. It takes no memory.
    pub fn products(&self) -> &[Product]
        ensures { result.now ≡ self.now.products }
    {
        self.products.items()
    }

    /// The sum as a factor, where it has no product and at most four bits; its bits rise.
    pub fn factor(&self) -> Result<Option<Factor>, Memory>
        requires { AreRising self.now.bits }
        ensures { IfOk result (IsFactorOrLong self.now) }
    {
        if !self.products().is_empty() || self.bits().len() > MOST_FACTOR_BITS {
            return Ok(None);
        }
        let bits = Vec::from_slice(*self.bits.allocator(), self.bits())?;
        Ok(Some(Factor::new(bits, self.one)))
    }

    /// The sum without the constant. It takes no memory.
    pub fn without_one(self) -> Sum
        ensures { result ≡ record self { one = false } }
    {
        let Sum { bits, products, .. } = self;
        Sum {
            bits,
            products,
            one: false,
        }
    }

    /// Whether it has the constant 1. It takes no memory.
    pub fn one(&self) -> bool
        ensures { result ≡ self.now.one }
    {
        self.one
    }
}
