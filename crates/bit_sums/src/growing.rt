// Sums that grow.
ghost use Rattle.std.specs.Prelude.{◌≡◌, ◌+◌, ◌≤◌, [], ◌∷◌, length, not, true, false, IfOk, OnOk};
ghost use Rattle.std.specs.Prelude.{List};
ghost use Rattle.std.specs.Prelude.{◌⊎◌, ◌++◌, cond};
ghost use Rattle.std.specs.List.{AllByRecursion};
ghost use Rattle.std.specs.List.Sorted.{IsPermutation};
ghost use Rattle.std.specs.Option.{option_to_list};
ghost use Rattle.bit_sums.specs.Growing.{IsFinished, IsPut, IsShort, IsSumOf, IsTimes};
ghost use Rattle.bit_sums.specs.Growing.{sum_of_factor};
ghost use Rattle.bit_sums.specs.Products.{IsProduct};
ghost use Rattle.bit_sums.specs.Sums.{ProductView, SumView};
ghost use Rattle.bit_sums.specs.inside.Firsts.{IsFirst, IsFirstOfFew, found_before};
ghost use Rattle.bit_sums.specs.inside.Putting.{ArePut, IsPutOnce, WithBits};

use crate::bits::{apart, rising};
use crate::product::{Part, Product, joined, multiplied};
use crate::{Factor, Sum};
use dependency_graph::Base;
use indexmap::IndexSet;
use revc_base::Memory;
use std::alloc::Global;
use std::marker::Model;

/// The most products of a sum among which one is looked for that a new product can be joined with.
pub const MOST_JOINED: usize = 64;

/// A sum that grows: a bit that was added an even number of times is none. Contracts see it as the
/// list of all bits that were added, and its products.
#[derive(Drop)]
pub struct GrowingSum {
    bits: Vec<Base>,
    products: IndexSet<Product>,
    one: bool,
}

impl Model for GrowingSum {
    ghost Value = { SumView };

    ghost view = { λ s. record { bits = s.bits.items; products = s.products.keys; one = s.one } };

    ghost invariant = { λ s. AllByRecursion IsProduct s.products.keys };
}

impl GrowingSum {
    /// The constant 0 or 1. It takes no memory.
    pub fn constant(alloc: Global, one: bool) -> GrowingSum
        ensures { result ≡ record { bits = []; products = []; one = one } }
    {
        GrowingSum {
            bits: Vec::new(alloc),
            products: IndexSet::new(alloc),
            one,
        }
    }

    /// One bit.
    pub fn bit(alloc: Global, base: Base) -> Result<GrowingSum, Memory>
        ensures { IfOk result (λ sum.
            sum ≡ record { bits = base ∷ []; products = []; one = false }) }
    {
        Ok(GrowingSum {
            bits: Vec::from_slice(alloc, &[base])?,
            products: IndexSet::new(alloc),
            one: false,
        })
    }

    /// The negation: the constant 1 is added. It takes no memory.
    pub fn negate(&mut self)
        ensures { self.new ≡ record self.old { one = not self.old.one } }
    {
        self.one = !self.one;
    }

    /// The sum of a factor.
    pub fn of(factor: &Factor) -> Result<GrowingSum, Memory>
        ensures sum { IfOk result (λ sum. sum ≡ sum_of_factor factor.now) }
        ensures short { IsShort factor.now }
    {
        let alloc = factor.allocator();
        Ok(GrowingSum {
            bits: Vec::from_slice(alloc, factor.bits())?,
            products: IndexSet::new(alloc),
            one: factor.one(),
        })
    }

    /// The product of two factors: `(c + A) (d + B) = c d + d A + c B + A B`.
    pub fn times(a: &Factor, b: &Factor) -> Result<GrowingSum, Memory>
        ensures { IfOk result (IsTimes a.now b.now) }
    {
        let alloc = a.allocator();
        let Part { bits, product } = multiplied(alloc, a.bits(), b.bits())?;
        let scaled = apart(
            alloc,
            bits_if(a.bits(), b.one()),
            bits_if(b.bits(), a.one()),
        )?;
        Ok(GrowingSum {
            bits: apart(alloc, &scaled, &bits)?,
            products: set_of(alloc, product)?,
            one: a.one() && b.one(),
        })
    }

    /// The sum of both: the one with fewer products goes into the other.
    pub fn add(self, other: GrowingSum) -> Result<GrowingSum, Memory>
        ensures { IfOk result (IsSumOf self other) }
    {
        if self.products.len() < other.products.len() {
            return other.with(self);
        }
        self.with(other)
    }

    // The sum of both: the products of the other one, which has no more, are put into this one.
    fn with(self, other: GrowingSum) -> Result<GrowingSum, Memory>
        requires { length other.products ≤ length self.products }
        ensures { IfOk result (IsSumOf self other) }
    {
        let GrowingSum {
            bits,
            products,
            one,
        } = other;
        let products = in_order(*bits.allocator(), products)?;
        let mut sum = self.with_bits(bits, one)?;
        sum.put_all(products)?;
        Ok(sum)
    }

    // The sum with more bits, and with the constant turned if `one`.
    fn with_bits(self, more: Vec<Base>, one: bool) -> Result<GrowingSum, Memory>
        ensures { IfOk result (WithBits self more.items one) }
    {
        let GrowingSum {
            bits,
            products,
            one: had,
        } = self;
        Ok(GrowingSum {
            bits: appended(bits, more)?,
            products,
            one: had != one,
        })
    }

    // Adds products, one after another.
    fn put_all(&mut self, products: Vec<Product>) -> Result<(), Memory>
        ensures { OnOk result (ArePut self.old products.items self.new) }
    {
        for product in products {
            self.put(product)?;
        }
        Ok(())
    }

    /// The sum as it stands, of as many products: its bits rise.
    pub fn finish(self) -> Result<Sum, Memory>
        ensures { IfOk result (IsFinished self) }
    {
        let GrowingSum {
            bits,
            products,
            one,
        } = self;
        let alloc = *bits.allocator();
        let products = in_order(alloc, products)?;
        Ok(Sum::new(rising(alloc, &bits)?, products, one))
    }

    /// Adds a product: an equal one cancels it, and one that it can be joined with makes another
    /// product with it, where there are few.
    fn put(&mut self, product: Product) -> Result<(), Memory>
        ensures { OnOk result (IsPut self.old product self.new) }
    {
        match self.put_once(product)? {
            Some(next) => self.put(next),
            None => Ok(()),
        }
    }

    // Adds a product, and answers the one that is still to be added.
    fn put_once(&mut self, product: Product) -> Result<Option<Product>, Memory>
        ensures { IfOk result (λ next. IsPutOnce self.old product self.new next) }
    {
        // This call says that its factors have few bits.
        let _ = product.first();
        if self.products.swap_remove(&product) {
            return Ok(None);
        }
        let Some(Join { place, part }) = self.first_join(&product)? else {
            self.products.insert(product)?;
            return Ok(None);
        };
        drop(self.products.swap_remove_index(place));
        let Part { bits, product } = part;
        self.bits.extend_from_slice(&bits)?;
        Ok(product)
    }

    // The least product that can be joined with this one, where there are few.
    fn first_join(&self, product: &Product) -> Result<Option<Join>, Memory>
        ensures { IfOk result (IsFirstOfFew self.now.products product.now) }
    {
        if self.products.len() > MOST_JOINED {
            return Ok(None);
        }
        first_join(*self.bits.allocator(), self.products.as_slice(), product)
    }
}

// The bits if `taken`, and none if not.
fn bits_if(bits: &[Base], taken: bool) -> &[Base]
    ensures { result.now ≡ cond taken bits.now [] }
{
    if taken { bits } else { &[] }
}

// The set of at most one product.
fn set_of(alloc: Global, product: Option<Product>) -> Result<IndexSet<Product>, Memory>
    ensures keys { IfOk result (λ set. set.keys ≡ option_to_list product) }
    ensures products { IfOk result (λ set. AllByRecursion IsProduct set.keys) }
{
    let mut set = IndexSet::new(alloc);
    let Some(product) = product else {
        return Ok(set);
    };
    // This call says that its factors have few bits.
    let _ = product.first();
    set.insert(product)?;
    Ok(set)
}

// The products of a set, in the dictionary's order.
fn in_order(alloc: Global, set: IndexSet<Product>) -> Result<Vec<Product>, Memory>
    ensures { IfOk result (λ products. IsPermutation set.keys products.items) }
{
    let mut products: Vec<Product> = set.into_iter().collect(alloc)?;
    products.sort_by(|x, y| x.order(y))?;
    Ok(products)
}

// Both lists: the shorter one goes behind the longer one.
fn appended(a: Vec<Base>, b: Vec<Base>) -> Result<Vec<Base>, Memory>
    ensures { IfOk result (λ both.
        (both.items ≡ a.items ++ b.items) ⊎ (both.items ≡ b.items ++ a.items)) }
{
    if a.len() < b.len() {
        return extended(b, &a);
    }
    extended(a, &b)
}

// The longer list, with the other one behind it.
fn extended(mut list: Vec<Base>, more: &[Base]) -> Result<Vec<Base>, Memory>
    requires { length more.now ≤ length list.items }
    ensures { IfOk result (λ whole. whole.items ≡ list.items ++ more.now) }
{
    list.extend_from_slice(more)?;
    Ok(list)
}

// A product of a list, by its place, and what it makes with another one.
#[derive(Drop)]
struct Join {
    place: usize,
    part: Part,
}

// The least of the products that can be joined with this one.
fn first_join(
    alloc: Global,
    products: &[Product],
    product: &Product,
) -> Result<Option<Join>, Memory>
    ensures { IfOk result (IsFirst products.now product.now) }
{
    let mut first = None;
    for (place, other) in products.iter().enumerate() {
        if is_behind(products, &first, other) {
            continue;
        }
        if let Some(part) = joined(alloc, product, other)? {
            first = Some(Join { place, part });
        }
    }
    Ok(first)
}

// Whether a lesser product was found.
fn is_behind(products: &[Product], found: &Option<Join>, other: &Product) -> bool
    ensures { result ≡ found_before products.now found.now other.now }
{
    match found {
        Some(join) => match products.get(join.place) {
            Some(least) => least.order(other).is_lt(),
            None => false,
        },
        None => false,
    }
}
