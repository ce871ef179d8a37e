// Factors of products.
ghost use Rattle.std.specs.Prelude.{◌≡◌, ◌∷◌, [], IfOk};
ghost use Rattle.bit_sums.specs.Growing.{FactorView, IsShort};

use dependency_graph::Base;
use revc_base::Memory;
use std::alloc::Global;
use std::marker::Model;

/// A factor of a product: the sum of at most four bits, and of the constant 1 where it has that.
#[derive(Drop)]
pub struct Factor {
    bits: Vec<Base>,
    one: bool,
}

impl Model for Factor {
    ghost Value = { FactorView };

    ghost view = { λ f. record { bits = f.bits.items; one = f.one } };

    ghost invariant = { λ f. IsShort (record { bits = f.bits.items; one = f.one }) };
}

impl Factor {
    /// The sum of these bits, which rise, and of 1 if `one`. It takes no memory.
    pub fn new(bits: Vec<Base>, one: bool) -> Factor
        requires { IsShort (record { bits = bits.items; one = one }) }
        ensures { result ≡ record { bits = bits.items; one = one } }
    {
        Factor { bits, one }
    }

    /// One bit, or its negation.
    pub fn bit(alloc: Global, base: Base, negated: bool) -> Result<Factor, Memory>
        ensures { IfOk result (λ factor. factor ≡ record { bits = base ∷ []; one = negated }) }
    {
        let bits = Vec::from_slice(alloc, &[base])?;
        Ok(Factor { bits, one: negated })
    }

    /// The same factor.
    pub fn copy(&self) -> Result<Factor, Memory>
        ensures { IfOk result (λ factor. factor ≡ self.now) }
    {
        let bits = Vec::from_slice(*self.bits.allocator(), &self.bits)?;
        Ok(Factor {
            bits,
            one: self.one,
        })
    }

    /// The bits, rising. It takes no memory.
    pub fn bits(&self) -> &[Base]
        ensures bits { result.now ≡ self.now.bits }
        ensures short { IsShort self.now }
    {
        &self.bits
    }

    /// Whether it has the constant 1. It takes no memory.
    pub fn one(&self) -> bool
        ensures { result ≡ self.now.one }
    {
        self.one
    }

    /// Where it takes its memory from.
    pub fn allocator(&self) -> Global {
        *self.bits.allocator()
    }
}
