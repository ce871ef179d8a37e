// Monomials, products of inputs, and sums of monomials in the dictionary's order.
ghost use Rattle.std.specs.Prelude.{◌≡◌, [], ◌∷◌, ◌++◌, IfOk, OnOk, List};
ghost use Rattle.std.specs.Ordering.{nat_cmp};
ghost use Rattle.std.specs.Cmp.Lexicographic.{slice_cmp};
ghost use Rattle.std.specs.Prelude.{ℕ};
ghost use Rattle.revs_tape.specs.inside.Sums.{exclusive_sum_of, union_of};
ghost use Rattle.revs_tape.specs.inside.Aligned.{by_order};

use revc_base::{Key, Memory};
use std::alloc::Global;
use std::cmp::Ordering;
use std::marker::Model;

// A product of inputs, which rise. Contracts see it as the list of its inputs.
#[derive(PartialEq, Eq, Hash, Drop)]
pub struct Monomial {
    inputs: Key<u32>,
}

impl Model for Monomial {
    ghost Value = { List ℕ };

    ghost view = { λ m. m.inputs };

    ghost inverse = { λ m. record { inputs = m } };
}

impl Monomial {
    // The constant 1.
    pub fn one(alloc: Global) -> Monomial
        ensures { result ≡ [] }
    {
        Monomial {
            inputs: Key::new(Vec::new(alloc)),
        }
    }

    pub fn input(alloc: Global, input: u32) -> Result<Monomial, Memory>
        ensures { IfOk result (λ m. m ≡ input ∷ []) }
    {
        Ok(Monomial {
            inputs: Key::new(Vec::from_slice(alloc, &[input])?),
        })
    }

    pub fn inputs(&self) -> &[u32]
        ensures { result.now ≡ self.now }
    {
        self.inputs.items()
    }

    pub fn copy(&self) -> Result<Monomial, Memory>
        ensures { IfOk result (λ m. m ≡ self.now) }
    {
        let alloc = *self.inputs.allocator();
        Ok(Monomial {
            inputs: Key::new(Vec::from_slice(alloc, self.inputs())?),
        })
    }

    // By the dictionary's order.
    pub fn order(&self, other: &Monomial) -> Ordering
        ensures { result ≡ slice_cmp nat_cmp self.now other.now }
    {
        self.inputs().cmp(other.inputs())
    }

    // The product of both: the inputs of one or the other.
    pub fn union(&self, other: &Monomial) -> Result<Monomial, Memory>
        ensures { IfOk result (λ m. m ≡ union_of self.now other.now) }
    {
        let alloc = *self.inputs.allocator();
        let (left, right) = (self.inputs(), other.inputs());
        let mut inputs = Vec::new(alloc);
        let (mut i, mut j) = (0, 0);
        while i < left.len() && j < right.len() {
            let (x, y) = (left[i], right[j]);
            inputs.push(x.min(y))?;
            i += usize::from(x <= y);
            j += usize::from(y <= x);
        }
        inputs.extend_from_slice(&left[i..])?;
        inputs.extend_from_slice(&right[j..])?;
        Ok(Monomial {
            inputs: Key::new(inputs),
        })
    }
}

// Appends copies of monomials.
fn push_copies(all: &mut Vec<Monomial>, more: &[Monomial]) -> Result<(), Memory>
    ensures { OnOk result (all.new.items ≡ all.old.items ++ more.now) }
{
    for monomial in more {
        push_copy(all, monomial)?;
    }
    Ok(())
}

// The sum of two sums in order: what stands in one of them and not in the other, in order.
pub fn exclusive_sum(
    alloc: Global,
    left: &[Monomial],
    right: &[Monomial],
) -> Result<Vec<Monomial>, Memory>
    ensures { IfOk result (λ sum. sum.items ≡ exclusive_sum_of left.now right.now) }
{
    let mut sum = Vec::with_capacity(alloc, left.len() + right.len())?;
    let (mut i, mut j) = (0, 0);
    while i < left.len() && j < right.len() {
        let (x, y) = (&left[i], &right[j]);
        let order = x.order(y);
        push_lesser(&mut sum, x, y, order)?;
        i += usize::from(order.is_le());
        j += usize::from(order.is_ge());
    }
    push_copies(&mut sum, &left[i..])?;
    push_copies(&mut sum, &right[j..])?;
    Ok(sum)
}

// Appends a copy of the lesser of two monomials, and none where they are one.
fn push_lesser(
    sum: &mut Vec<Monomial>,
    x: &Monomial,
    y: &Monomial,
    order: Ordering,
) -> Result<(), Memory>
    ensures { OnOk result (sum.new.items
        ≡ sum.old.items ++ by_order order (x.now ∷ []) [] (y.now ∷ [])) }
{
    match order {
        Ordering::Less => push_copy(sum, x),
        Ordering::Greater => push_copy(sum, y),
        Ordering::Equal => Ok(()),
    }
}

fn push_copy(sum: &mut Vec<Monomial>, monomial: &Monomial) -> Result<(), Memory>
    ensures { OnOk result (sum.new.items ≡ sum.old.items ++ monomial.now ∷ []) }
{
    sum.push(monomial.copy()?)?;
    Ok(())
}
