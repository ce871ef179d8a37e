// The table of known products.
ghost use Rattle.std.specs.Prelude.{◌≡◌, [], IfOk, IfSome};
ghost use Rattle.linear_forms.specs.Forms.{IsSum};
ghost use Rattle.product_sums.specs.Products.{ProductsView, Extends, IsDetermined, IsProduct};
ghost use Rattle.product_sums.specs.Products.{HasValuations};
ghost use Rattle.product_sums.specs.inside.Tables.{IsTable, view_of};

use crate::ProductsFault;
use crate::budget::Budget;
use crate::find::{recalled, searched};
use crate::index::Index;
use crate::known::{Known, known_of};
use linear_forms::Form;
use std::alloc::Global;
use std::marker::Model;

/// Products of exclusive sums that are known to be sums of atoms. Contracts see which atoms stand
/// for no product, and which product each other atom stands for.
#[derive(Drop)]
pub struct Products {
    given: u32,
    atoms: u32,
    known: Vec<Known>,
    index: Index,
    budget: Budget,
}

impl Model for Products {
    ghost Value = { ProductsView };

    ghost view = { λ p. view_of p.given p.known.items };

    ghost invariant = { λ p. IsTable p.given p.known.items p.atoms };
}

impl Products {
    /// A table where so many atoms, from 0 on, stand for no product. It takes no memory.
    pub fn new(alloc: Global, given: u32) -> Products
        ensures { result ≡ record { given = given; made = [] } }
    {
        Products {
            given,
            atoms: given,
            known: Vec::new(alloc),
            index: Index::new(alloc),
            budget: Budget::new(),
        }
    }

    /// Asks that from here on at most 4 atoms are made for each product that is known now, and
    /// 4,096 more. What is known stays.
    pub fn limit_atoms(&mut self)
        ensures { self.new ≡ self.old }
    {
        self.budget.limit_atoms(self.atoms, self.known.len());
    }

    /// Counts the words that the caller holds, against the limit.
    pub fn hold(&mut self, words: usize)
        ensures { self.new ≡ self.old }
    {
        self.budget.hold(words);
    }

    /// Counts words no longer that the caller held.
    pub fn let_go(&mut self, words: usize)
        ensures { self.new ≡ self.old }
    {
        self.budget.let_go(words);
    }

    /// The sum of both, in time linear in both.
    ///
    /// # Errors
    /// `Limit` where the steps or the words held pass their limit, and `Memory`.
    pub fn sum(&mut self, first: &Form, second: &Form) -> Result<Form, ProductsFault>
        ensures sum { IfOk result (IsSum first.now second.now) }
        ensures same { self.new ≡ self.old }
    {
        self.spend(first.len().saturating_add(second.len()))?;
        Ok(first.plus(second)?)
    }

    /// How many products are known.
    pub fn count(&self) -> usize {
        self.known.len()
    }

    /// The known product at a place: its factors and its value.
    pub fn known(&self, place: usize) -> Option<&Known>
        ensures { IfSome result (λ known.
            IsProduct self.now known.now.first known.now.second known.now.value) }
    {
        self.known.get(place)
    }

    /// The product of both, where it is known or the sum of known products.
    ///
    /// # Errors
    /// `Limit` where the steps or the words held pass their limit, and `Memory`.
    pub fn found(&mut self, first: &Form, second: &Form) -> Result<Option<Form>, ProductsFault>
        ensures product { IfOk result (λ found.
            IfSome found (IsProduct self.new first.now second.now)) }
        ensures same { self.new ≡ self.old }
    {
        if let Some(value) = self.recalled(first, second)? {
            return Ok(Some(value));
        }
        match self.searched(first, second)? {
            Some(value) => self.keep(first, second, value).map(Some),
            None => Ok(None),
        }
    }

    // The product, where it is known, a constant, or derived without a search.
    fn recalled(&mut self, first: &Form, second: &Form) -> Result<Option<Form>, ProductsFault>
        ensures product { IfOk result (λ found.
            IfSome found (IsProduct self.new first.now second.now)) }
        ensures same { self.new ≡ self.old }
    {
        recalled(
            &self.known,
            first,
            second,
            &mut self.index,
            &mut self.budget,
        )
    }

    // The product, where it is the sum of known ones that a search finds.
    fn searched(&mut self, first: &Form, second: &Form) -> Result<Option<Form>, ProductsFault>
        ensures product { IfOk result (λ found.
            IfSome found (IsProduct self.new first.now second.now)) }
        ensures same { self.new ≡ self.old }
    {
        searched(&self.known, first, second, &self.index, &mut self.budget)
    }

    /// The product's value, which is known from here on.
    ///
    /// # Errors
    /// `Memory`.
    pub fn keep(&mut self, first: &Form, second: &Form, value: Form) -> Result<Form, ProductsFault>
        requires { IsProduct self.old first.now second.now value }
        ensures same { self.new ≡ self.old }
        ensures value { IfOk result (λ kept. kept ≡ value) }
    {
        let known = known_of(first, second, &value, false)?;
        self.budget.hold(known.len());
        self.index.note(self.known.len(), &known)?;
        self.known.push(known)?;
        Ok(value)
    }

    /// An atom that stands for the product from here on.
    ///
    /// # Errors
    /// `Limit` where the atoms pass their limit, and `Memory`.
    pub fn make(&mut self, first: &Form, second: &Form) -> Result<Form, ProductsFault>
        requires first { IsDetermined self.old first.now }
        requires second { IsDetermined self.old second.now }
        ensures extends { Extends self.old self.new }
        ensures product { IfOk result (IsProduct self.new first.now second.now) }
    {
        if !self.budget.has_room(self.atoms) {
            return Err(ProductsFault::Limit);
        }
        let value = Form::atom(first.allocator(), self.atoms)?;
        let known = known_of(first, second, &value, true)?;
        self.budget.hold(known.len());
        self.index.note(self.known.len(), &known)?;
        self.known.push(known)?;
        self.atoms += 1;
        Ok(value)
    }

    fn spend(&mut self, steps: usize) -> Result<(), ProductsFault>
        ensures { self.new ≡ self.old }
    {
        self.budget.spend(steps)
    }

    /// Whatever the atoms are that stand for no product, all atoms have values. The function does
    /// nothing: its contract is the law.
    pub fn valuations(&self)
        ensures { HasValuations self.now }
    {
        let _given = self.given;
    }
}
