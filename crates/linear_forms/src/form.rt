// Forms: exclusive sums of atoms and of a constant.
ghost use Rattle.std.specs.Prelude.{◌≡◌, ℕ, ◌+◌, ◌<◌, ◌||◌, Bool, true, not, IfOk, OnOk, IfSome};
ghost use Rattle.std.specs.Bool.{xor};
ghost use Rattle.std.specs.declared.cmp.Ordering.{Ordering};
ghost use Rattle.linear_forms.specs.Forms.{FormView, AreSum, AreTaken, IsAtom, IsConstant, IsSum};
ghost use Rattle.linear_forms.specs.Forms.{form_value, terms_value, word_value};

use crate::Fingerprint;
use revc_base::Memory;
use std::alloc::Global;
use std::cmp::Ordering;
use std::marker::Model;

/// Up to 64 atoms: bit b of the word is atom 64 place + b.
#[derive(Clone, Copy, PartialEq, Eq)]
pub struct Term {
    pub place: u32,
    pub word: u64,
}

/// The exclusive sum of a constant and of atoms. The terms' places rise and no word is 0, so that
/// equal sums of atoms are equal lists; no contract rests on it.
#[derive(Drop)]
pub struct Form {
    one: bool,
    terms: Vec<Term>,
    fingerprint: Fingerprint,
}

impl Model for Form {
    ghost Value = { FormView };

    ghost view = { λ f. record { one = f.one; terms = f.terms.items } };
}

impl Form {
    /// The constant 0 or 1. It takes no memory.
    pub fn constant(alloc: Global, one: bool) -> Form
        ensures { IsConstant one result }
    {
        Form {
            one,
            terms: Vec::new(alloc),
            fingerprint: Fingerprint::none(),
        }
    }

    /// One atom.
    pub fn atom(alloc: Global, number: u32) -> Result<Form, Memory>
        ensures { IfOk result (IsAtom number) }
    {
        let term = Term {
            place: number / 64,
            word: 1 << (number % 64),
        };
        Ok(Form {
            one: false,
            terms: Vec::from_slice(alloc, &[term])?,
            fingerprint: Fingerprint::atom(number),
        })
    }

    /// The same form.
    pub fn copy(&self) -> Result<Form, Memory>
        ensures { IfOk result (λ form. form ≡ self.now) }
    {
        Ok(Form {
            one: self.one,
            terms: Vec::from_slice(*self.terms.allocator(), &self.terms)?,
            fingerprint: self.fingerprint,
        })
    }

    /// The sum with 1 where `one`. It takes no memory.
    pub fn with_one(self, one: bool) -> Form
        ensures { (atom : ℕ → Bool) → form_value atom result ≡ xor one (form_value atom self) }
    {
        let Form {
            one: had,
            terms,
            fingerprint,
        } = self;
        Form {
            one: one != had,
            terms,
            fingerprint,
        }
    }

    /// The sum of both, in time linear in both.
    pub fn plus(&self, other: &Form) -> Result<Form, Memory>
        ensures { IfOk result (IsSum self.now other.now) }
    {
        let terms = added(*self.terms.allocator(), &self.terms, &other.terms)?;
        Ok(Form {
            one: self.one != other.one,
            terms,
            fingerprint: self.fingerprint.plus(other.fingerprint),
        })
    }

    /// Whether both have the same atoms, whatever their constants are.
    pub fn is_alike(&self, other: &Form) -> bool
        ensures { result ≡ true → self.now.terms ≡ other.now.terms }
    {
        self.terms.as_slice() == other.terms.as_slice()
    }

    /// The constant that is added to the atoms.
    pub fn one(&self) -> bool
        ensures { result ≡ self.now.one }
    {
        self.one
    }

    /// The form's value, where it has no atoms.
    pub fn as_constant(&self) -> Option<bool>
        ensures { IfSome result (λ one. IsConstant one self.now) }
    {
        if self.terms.as_slice().is_empty() {
            Some(self.one)
        } else {
            None
        }
    }

    /// How many terms it has.
    pub fn len(&self) -> usize {
        self.terms.len()
    }

    /// Its fingerprint, which proves nothing.
    pub fn fingerprint(&self) -> Fingerprint {
        self.fingerprint
    }

    /// Its terms.
    pub fn terms(&self) -> &[Term] {
        &self.terms
    }

    /// Where it takes its memory from.
    pub fn allocator(&self) -> Global {
        *self.terms.allocator()
    }
}

// The sum of two lists of terms.
fn added(alloc: Global, left: &[Term], right: &[Term]) -> Result<Vec<Term>, Memory>
    ensures { IfOk result (λ sum. AreSum left.now right.now sum.items) }
{
    let mut sum = Vec::new(alloc);
    let (mut i, mut j) = (0, 0);
    while i < left.len() && j < right.len() {
        let order = push_next(&mut sum, left[i], right[j])?;
        i += usize::from(order.is_le());
        j += usize::from(order.is_ge());
    }
    sum.extend_from_slice(&left[i..])?;
    sum.extend_from_slice(&right[j..])?;
    Ok(sum)
}

// Adds the term of the lower place to a sum, or both where they have one place.
fn push_next(sum: &mut Vec<Term>, x: Term, y: Term) -> Result<Ordering, Memory>
    ensures { IfOk result (AreTaken sum.old.items sum.new.items x y) }
{
    if x.place == y.place {
        push_word(sum, x.place, x.word ^ y.word)?;
        return Ok(Ordering::Equal);
    }
    if x.place < y.place {
        sum.push(x)?;
        return Ok(Ordering::Less);
    }
    sum.push(y)?;
    Ok(Ordering::Greater)
}

// Adds the atoms of a word.
fn push_word(sum: &mut Vec<Term>, place: u32, word: u64) -> Result<(), Memory>
    ensures { OnOk result ((atom : ℕ → Bool) → terms_value atom sum.new.items
        ≡ xor (terms_value atom sum.old.items) (word_value atom place word)) }
{
    if word == 0 {
        return Ok(());
    }
    sum.push(Term { place, word })?;
    Ok(())
}
