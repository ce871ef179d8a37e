// Products of two sums of bits, and what two of them make.
ghost use Rattle.std.specs.Prelude.{◌≡◌, ◌≢◌, ◌<◌, [], ◌∷◌, length, false, IfOk, IfSome, IfNone};
ghost use Rattle.std.specs.Bool.{xor};
ghost use Rattle.std.specs.List.{list_any};
ghost use Rattle.dependency_graph.specs.Folds.{is_same};
ghost use Rattle.bit_sums.specs.Bits.{AreRising, HasOwn, apart};
ghost use Rattle.bit_sums.specs.Products.{IsFactor, IsProduct, IsProductOf};
ghost use Rattle.bit_sums.specs.inside.Joins.{AreLong, CanJoin, Cross, HasFactors, IsCrossing};
ghost use Rattle.bit_sums.specs.inside.Joins.{IsJoined, IsShared, CannotShare, ShareFactor};
ghost use Rattle.bit_sums.specs.inside.Joins.{product_cmp};
ghost use Rattle.bit_sums.specs.inside.Steps.{AreApart, IsCrossed, IsFactored, IsWithin};
ghost use Rattle.bit_sums.specs.inside.Steps.{JoinsFactors};
ghost use Rattle.bit_sums.specs.Sums.{ProductView};
ghost use Rattle.bit_sums.specs.declared.limits.TheConstants.{MOST_FACTOR_BITS};

use crate::MOST_FACTOR_BITS;
use crate::bits::apart;
use dependency_graph::Base;
use revc_base::{Key, Memory};
use std::alloc::Global;
use std::cmp::Ordering;
use std::marker::Model;

/// The product of two sums of at most four bits, each with a bit that the other lacks.
#[derive(PartialEq, Eq, Hash, Drop)]
pub struct Product {
    first: Key<Base>,
    second: Key<Base>,
}

impl Model for Product {
    ghost Value = { ProductView };

    ghost view = { λ p. record { first = p.first; second = p.second } };

    ghost invariant = { λ p. IsProduct (record { first = p.first; second = p.second }) };

    ghost inverse = { λ p. record { first = p.first; second = p.second } };
}

impl Product {
    // The product of two sums.
    fn new(first: Vec<Base>, second: Vec<Base>) -> Product
        requires { IsProduct (record { first = first.items; second = second.items }) }
        ensures { result ≡ record { first = first.items; second = second.items } }
    {
        Product {
            first: Key::new(first),
            second: Key::new(second),
        }
    }

    /// The product of two different bits.
    pub fn of_bits(alloc: Global, a: Base, b: Base) -> Result<Product, Memory>
        requires { a ≢ b }
        ensures { IfOk result (λ product.
            product ≡ record { first = a ∷ []; second = b ∷ [] }) }
    {
        let first = Vec::from_slice(alloc, &[a])?;
        let second = Vec::from_slice(alloc, &[b])?;
        Ok(Product::new(first, second))
    }

    /// The bits of the first factor, rising. It takes no memory.
    pub fn first(&self) -> &[Base]
        ensures first { result.now ≡ self.now.first }
        ensures product { IsProduct self.now }
    {
        self.first.items()
    }

    /// The bits of the second factor, rising. It takes no memory.
    pub fn second(&self) -> &[Base]
        ensures second { result.now ≡ self.now.second }
        ensures product { IsProduct self.now }
    {
        self.second.items()
    }
}

impl Product {
    // By the dictionary's order of the first factors, and then of the second ones.
    pub fn order(&self, other: &Product) -> Ordering
        ensures { result ≡ product_cmp self.now other.now }
    {
        match self.first().cmp(other.first()) {
            Ordering::Equal => self.second().cmp(other.second()),
            order => order,
        }
    }

    // The product of two factors, the first of which in the dictionary's order is its first.
    fn in_order(a: Vec<Base>, b: Vec<Base>) -> Product
        requires { IsProduct (record { first = a.items; second = b.items }) }
        ensures { HasFactors a.items b.items result }
    {
        if a.as_slice() < b.as_slice() {
            Product::new(a, b)
        } else {
            Product::new(b, a)
        }
    }
}

/// The sum of some bits, and of a product where there is one.
#[derive(Drop)]
pub struct Part {
    pub bits: Vec<Base>,
    pub product: Option<Product>,
}

/// The product of two sums of bits: `a b = a + a (a + b)` where a set is within the other.
pub fn multiplied(alloc: Global, a: &[Base], b: &[Base]) -> Result<Part, Memory>
    requires a { IsFactor a.now }
    requires b { IsFactor b.now }
    ensures { IfOk result (λ part. IsProductOf a.now b.now part.bits.items part.product) }
{
    let rest = apart(alloc, a, b)?;
    if rest.len() + a.len() == b.len() {
        return within(alloc, a, rest);
    }
    if rest.len() + b.len() == a.len() {
        return within(alloc, b, rest);
    }
    let a = Vec::from_slice(alloc, a)?;
    let b = Vec::from_slice(alloc, b)?;
    Ok(Part {
        bits: Vec::new(alloc),
        product: Some(Product::in_order(a, b)),
    })
}

// The product of a set and of one that has the bits of `rest` besides.
fn within(alloc: Global, lesser: &[Base], rest: Vec<Base>) -> Result<Part, Memory>
    requires lesser { IsFactor lesser.now }
    requires rest { IsFactor rest.items }
    requires apart { AreApart lesser.now rest.items }
    ensures { IfOk result (λ part. IsWithin lesser.now rest.items part.bits.items part.product) }
{
    let bits = Vec::from_slice(alloc, lesser)?;
    if lesser.is_empty() || rest.is_empty() {
        return Ok(Part {
            bits,
            product: None,
        });
    }
    let lesser = Vec::from_slice(alloc, lesser)?;
    Ok(Part {
        bits,
        product: Some(Product::in_order(lesser, rest)),
    })
}

/// The sum of two products, where one of two rules makes it bits and one product of few bits.
pub fn joined(alloc: Global, p: &Product, q: &Product) -> Result<Option<Part>, Memory>
    ensures some { IfOk result (λ found.
        IfSome found (λ part. IsJoined p.now q.now part.bits.items part.product)) }
    ensures none { IfOk result (λ found. IfNone found (¬ CanJoin p.now q.now)) }
{
    if let Some(part) = by_shared_factor(alloc, p, q)? {
        return Ok(Some(part));
    }
    if let Some(part) = crossed(alloc, p, q)? {
        return Ok(Some(part));
    }
    crossed(alloc, q, p)
}

// `a c + b c = (a + b) c`, where two products share a factor.
fn by_shared_factor(alloc: Global, p: &Product, q: &Product) -> Result<Option<Part>, Memory>
    ensures some { IfOk result (λ found.
        IfSome found (λ part. IsShared p.now q.now part.bits.items part.product)) }
    ensures none { IfOk result (λ found. IfNone found (¬ ShareFactor p.now q.now)) }
{
    if let Some(part) = by_factor(alloc, p.first(), p.second(), q)? {
        return Ok(Some(part));
    }
    by_factor(alloc, p.second(), p.first(), q)
}

// The same for the product of `a` and `c`, where the other one has the factor `c`.
fn by_factor(alloc: Global, a: &[Base], c: &[Base], q: &Product) -> Result<Option<Part>, Memory>
    requires a { IsFactor a.now }
    requires c { IsFactor c.now }
    ensures some { IfOk result (λ found. IfSome found (λ part.
        JoinsFactors a.now c.now q.now part.bits.items part.product)) }
    ensures none { IfOk result (λ found. IfNone found (CannotShare a.now c.now q.now)) }
{
    let (b, d) = (q.first(), q.second());
    if c == d {
        return factored(alloc, a, b, c);
    }
    if c == b {
        return factored(alloc, a, d, c);
    }
    Ok(None)
}

// The product of `a + b` and `shared`, where `a + b` has few bits.
fn factored(alloc: Global, a: &[Base], b: &[Base], shared: &[Base]) -> Result<Option<Part>, Memory>
    requires a { IsFactor a.now }
    requires b { IsFactor b.now }
    requires shared { IsFactor shared.now }
    ensures some { IfOk result (λ found. IfSome found (λ part.
        IsFactored a.now b.now shared.now part.bits.items part.product)) }
    ensures none { IfOk result (λ found.
        IfNone found (MOST_FACTOR_BITS < length (apart a.now b.now))) }
{
    let sum = apart(alloc, a, b)?;
    if sum.len() > MOST_FACTOR_BITS {
        return Ok(None);
    }
    let part = multiplied(alloc, &sum, shared)?;
    Ok(Some(part))
}

// `a b + c (a + b) = (a + c) (b + c) + c`, where a factor of the second product is the sum of both
// of the first.
fn crossed(alloc: Global, p: &Product, q: &Product) -> Result<Option<Part>, Memory>
    ensures some { IfOk result (λ found.
        IfSome found (λ part. IsCrossing p.now q.now part.bits.items part.product)) }
    ensures none { IfOk result (λ found. IfNone found (¬ Cross p.now q.now)) }
{
    if !may_cross(p, q) {
        return Ok(None);
    }
    let sum = apart(alloc, p.first(), p.second())?;
    if q.second() == sum.as_slice() {
        return crossed_by(alloc, p, q.first());
    }
    if q.first() == sum.as_slice() {
        return crossed_by(alloc, p, q.second());
    }
    Ok(None)
}

// Whether a factor of the second product begins with a bit of the first. Few pairs of products do,
// and the sum of the first one's factors wants memory.
fn may_cross(p: &Product, q: &Product) -> bool
    ensures { result ≡ false → ¬ Cross p.now q.now }
{
    may_be_sum(q.second(), p) || may_be_sum(q.first(), p)
}

// Whether the first of the bits, where there is one, is among those of a product's factors.
fn may_be_sum(bits: &[Base], p: &Product) -> bool
    ensures { result ≡ false → bits.now ≢ apart p.now.first p.now.second }
{
    if bits.is_empty() {
        return true;
    }
    has(p.first(), bits[0]) || has(p.second(), bits[0])
}

fn has(bits: &[Base], base: Base) -> bool
    ensures { result ≡ list_any (is_same base) bits.now }
{
    bits.iter().any(|other| base == *other)
}

// The product of `a + c` and `b + c`, and the bits of `c`, where both sums have few bits.
fn crossed_by(alloc: Global, p: &Product, c: &[Base]) -> Result<Option<Part>, Memory>
    requires { IsFactor c.now }
    ensures some { IfOk result (λ found. IfSome found (λ part.
        IsCrossed p.now.first p.now.second c.now part.bits.items part.product)) }
    ensures none { IfOk result (λ found.
        IfNone found (AreLong p.now.first p.now.second c.now)) }
{
    let left = apart(alloc, p.first(), c)?;
    let right = apart(alloc, p.second(), c)?;
    if left.len() > MOST_FACTOR_BITS || right.len() > MOST_FACTOR_BITS {
        return Ok(None);
    }
    let Part { mut bits, product } = multiplied(alloc, &left, &right)?;
    bits.extend_from_slice(c)?;
    Ok(Some(Part { bits, product }))
}
