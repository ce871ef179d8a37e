// Polynomials of at most 64 monomials.
ghost use Rattle.std.specs.Prelude.{◌≡◌, ◌*◌, ◌≤◌, ◌==◌, ◌&&◌, not, [], ◌∷◌, ◌++◌, length, IfOk};
ghost use Rattle.std.specs.Prelude.{IfSome, if◌then◌else◌, nat_le, Some, None, List, ℕ};
ghost use Rattle.std.specs.Bool.{xor};
ghost use Rattle.revs_tape.specs.Polynomials.{IsPolynomial, IsPolynomialOf, value_of_polynomial};
ghost use Rattle.exclusive_sums.specs.Inputs.{AreOverInputsOf};
ghost use Rattle.exclusive_sums.specs.Limits.{LimitsAre, IsPolynomialUpTo};
ghost use Rattle.exclusive_sums.specs.declared.poly.TheConstants.{MOST_MONOMIALS};
ghost use Rattle.exclusive_sums.specs.inside.Products.{IsProduct};

use crate::monomial::{Monomial, exclusive_sum};
use crate::products::{in_order, product};
use indexmap::IndexSet;
use revc_base::Memory;
use std::alloc::Global;
use std::marker::Model;

/// The most monomials of a polynomial.
pub const MOST_MONOMIALS: usize = 64;

/// The law of limits: what number each is. The function does nothing: its contract is the law.
pub fn limits_are()
    ensures { LimitsAre }
{}

/// A polynomial over the field of two elements (the algebraic normal form, or Zhegalkin polynomial,
/// of a Boolean function): the exclusive or of at most 64 monomials, each the product of some
/// inputs. Inputs are counted from 0. Contracts see it as the set of its monomials, each a set of
/// inputs: a list in the dictionary's order of rising lists.
#[derive(Drop)]
pub struct Poly {
    monomials: Vec<Monomial>,
}

impl Model for Poly {
    ghost Value = { List (List ℕ) };

    ghost view = { λ p. p.monomials.items };

    ghost invariant = { λ p.
        IsPolynomial p.monomials.items × (length p.monomials.items ≤ MOST_MONOMIALS) };
}

impl Poly {
    /// The polynomial of one input.
    pub fn input(alloc: Global, input: u32) -> Result<Poly, Memory>
        ensures monomials { IfOk result (λ poly. poly ≡ (input ∷ []) ∷ []) }
        ensures function { IfOk result (IsPolynomialOf (λ assignment. assignment input)) }
    {
        let monomial = Monomial::input(alloc, input)?;
        Ok(Poly {
            monomials: Vec::from_array(alloc, [monomial])?,
        })
    }

    /// The polynomial of the negation. `None` comes exactly where it has more than 64 monomials.
    /// Its inputs are among those of this one.
    pub fn not(&self) -> Result<Option<Poly>, Memory>
        ensures polynomial { IfOk result
            (IsPolynomialUpTo MOST_MONOMIALS (λ x. not (value_of_polynomial x self.now))) }
        ensures inputs { IfOk result (λ answer. IfSome answer (AreOverInputsOf self.now)) }
    {
        let alloc = *self.monomials.allocator();
        let one = Vec::from_array(alloc, [Monomial::one(alloc)])?;
        let sum = exclusive_sum(alloc, &one, &self.monomials)?;
        Ok(limited(sum))
    }

    /// The polynomial of the exclusive or of both. `None` comes exactly where it has more than 64
    /// monomials. Its inputs are among those of both.
    pub fn xor(&self, other: &Poly) -> Result<Option<Poly>, Memory>
        ensures polynomial { IfOk result (IsPolynomialUpTo MOST_MONOMIALS
            (λ x. xor (value_of_polynomial x self.now) (value_of_polynomial x other.now))) }
        ensures inputs { IfOk result (λ answer.
            IfSome answer (AreOverInputsOf (self.now ++ other.now))) }
    {
        let alloc = *self.monomials.allocator();
        let sum = exclusive_sum(alloc, &self.monomials, &other.monomials)?;
        Ok(limited(sum))
    }

    /// The polynomial of the conjunction of both: their product, multiplied out with cancellation.
    /// `None` comes exactly where it has more than 64 monomials. Its inputs are among those of
    /// both. It multiplies at most 64 x 64 pairs of monomials, each in expected time linear in
    /// their lengths.
    pub fn and(&self, other: &Poly) -> Result<Option<Poly>, Memory>
        ensures polynomial { IfOk result (IsPolynomialUpTo MOST_MONOMIALS
            (λ x. value_of_polynomial x self.now && value_of_polynomial x other.now)) }
        ensures inputs { IfOk result (λ answer.
            IfSome answer (AreOverInputsOf (self.now ++ other.now))) }
    {
        let product = self.multiplied(other)?;
        if product.len() > MOST_MONOMIALS {
            return Ok(None);
        }
        let monomials = in_order(*self.monomials.allocator(), product)?;
        Ok(Some(Poly { monomials }))
    }

    // The monomials of the product, in any order. There are never more on the way to it than pairs.
    fn multiplied(&self, other: &Poly) -> Result<IndexSet<Monomial>, Memory>
        ensures product { IfOk result (λ product. IsProduct self.now other.now product.keys) }
        ensures few { IfOk result (λ product.
            length product.keys ≤ MOST_MONOMIALS * MOST_MONOMIALS) }
    {
        product(
            *self.monomials.allocator(),
            &self.monomials,
            &other.monomials,
        )
    }

    /// The number of monomials. It takes no memory.
    pub fn len(&self) -> u32
        ensures len { result ≡ length self.now }
        ensures few { result ≤ MOST_MONOMIALS }
        ensures polynomial { IsPolynomial self.now }
    {
        self.monomials.len() as u32
    }

    /// Whether there is no monomial, which is the constant 0.
    pub fn is_empty(&self) -> bool
        ensures { result ≡ (length self.now == 0) }
    {
        self.monomials.is_empty()
    }

    // The monomials, in order.
    pub(crate) fn monomials(&self) -> &[Monomial]
        ensures monomials { result.now ≡ self.now }
        ensures polynomial { IsPolynomial self.now }
    {
        &self.monomials
    }
}

// The polynomial of these monomials, if they are few enough.
fn limited(monomials: Vec<Monomial>) -> Option<Poly>
    requires { IsPolynomial monomials.items }
    ensures { result ≡ (if nat_le (length monomials.items) MOST_MONOMIALS
        then Some monomials.items
        else None) }
{
    if monomials.len() <= MOST_MONOMIALS {
        Some(Poly { monomials })
    } else {
        None
    }
}
