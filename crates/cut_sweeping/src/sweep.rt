// The table of products, and what cuts add to it.
ghost use Rattle.std.specs.Prelude.{◌≡◌, [], IfOk, IfSome, true};
ghost use Rattle.linear_forms.specs.Forms.{IsSum};
ghost use Rattle.product_sums.specs.Products.{Extends, HasValuations, IsDetermined, IsProduct};
ghost use Rattle.product_sums.specs.Products.{ProductsView};
ghost use Rattle.sum_cuts.specs.Cuts.{AreEqualSums};
ghost use Rattle.cut_sweeping.specs.inside.Cuts.{HoldsCuts};

use crate::cuts::Cuts;
use crate::reach::Reach;
use crate::wide::at_the_end;
use linear_forms::Form;
use product_sums::{Products, ProductsFault};
use std::alloc::Global;
use std::marker::Model;

/// The table of products of exclusive sums, where a product that is not derived may be told by a
/// cut. Contracts see which atoms stand for no product, and which product each other atom stands
/// for.
#[derive(Drop)]
pub struct Sweep {
    products: Products,
    cuts: Cuts,
    reach: Reach,
}

impl Model for Sweep {
    ghost Value = { ProductsView };

    ghost view = { λ s. s.products };

    ghost invariant = { λ s. HoldsCuts s.products s.cuts };
}

impl Sweep {
    /// A table where so many atoms, from 0 on, stand for no product.
    pub fn new(alloc: Global, given: u32, reach: Reach) -> Sweep
        ensures { result ≡ record { given = given; made = [] } }
    {
        Sweep {
            products: Products::new(alloc, given),
            cuts: Cuts::new(alloc, given, reach),
            reach,
        }
    }

    /// The program was read: from here on at most 4 atoms are made for each product that is known
    /// now, and 4,096 more. What is known stays.
    pub fn limit_atoms(&mut self)
        ensures { self.new ≡ self.old }
    {
        self.products.limit_atoms();
        self.cuts.atoms.end_program();
    }

    /// Counts the words that the caller holds, against the limit.
    pub fn hold(&mut self, words: usize)
        ensures { self.new ≡ self.old }
    {
        self.products.hold(words);
    }

    /// Counts words no longer that the caller held.
    pub fn let_go(&mut self, words: usize)
        ensures { self.new ≡ self.old }
    {
        self.products.let_go(words);
    }

    /// The sum of both, in time linear in both. Where it may be 0 or a sum of the program, cuts are
    /// asked.
    ///
    /// # Errors
    /// `Limit` where the steps or the words held pass their limit, and `Memory`.
    pub fn sum(&mut self, first: &Form, second: &Form) -> Result<Form, ProductsFault>
        ensures sum { IfOk result (IsSum first.now second.now) }
        ensures same { self.new ≡ self.old }
    {
        let sum = self.added(first, second)?;
        self.follow(first, second, &sum)?;
        self.meet(&sum)?;
        Ok(sum)
    }

    fn added(&mut self, first: &Form, second: &Form) -> Result<Form, ProductsFault>
        ensures sum { IfOk result (IsSum first.now second.now) }
        ensures same { self.new ≡ self.old }
    {
        self.products.sum(first, second)
    }

    // Notes what may be left out of a sum of two others.
    fn follow(&mut self, first: &Form, second: &Form, sum: &Form) -> Result<(), ProductsFault>
        ensures { self.new ≡ self.old }
    {
        Ok(self.cuts.follow(first, second, sum)?)
    }

    // Looks at a sum that was made.
    fn meet(&mut self, sum: &Form) -> Result<(), ProductsFault>
        ensures { self.new ≡ self.old }
    {
        if self.reach.has_wide() && !self.is_spent() {
            self.cuts.meet(&self.products, sum)?;
        }
        Ok(())
    }

    /// The product of both: known, or the sum of known products, or told by a cut, or an atom of
    /// its own.
    ///
    /// # Errors
    /// `Limit` where the atoms, the steps, the words held or the work of the search for cuts pass
    /// their limit, and `Memory`.
    pub fn product(&mut self, first: &Form, second: &Form) -> Result<Form, ProductsFault>
        requires first { IsDetermined self.old first.now }
        requires second { IsDetermined self.old second.now }
        ensures extends { Extends self.old self.new }
        ensures product { IfOk result (IsProduct self.new first.now second.now) }
        ensures determined { IfOk result (IsDetermined self.new) }
    {
        let first = self.normal(first)?;
        let second = self.normal(second)?;
        self.normal_product(&first, &second)
    }

    // An equal sum without atoms that are known to be sums of others.
    fn normal(&self, form: &Form) -> Result<Form, ProductsFault>
        ensures { IfOk result (AreEqualSums self.now form.now) }
    {
        self.cuts.refused()?;
        if self.is_spent() {
            return Err(ProductsFault::Limit);
        }
        Ok(self.cuts.zeros.normal(form)?)
    }

    // Whether the search for cuts has spent its work.
    fn is_spent(&self) -> bool {
        self.reach != Reach::Products && self.cuts.work.is_stopped()
    }

    fn normal_product(&mut self, first: &Form, second: &Form) -> Result<Form, ProductsFault>
        requires first { IsDetermined self.old first.now }
        requires second { IsDetermined self.old second.now }
        ensures extends { Extends self.old self.new }
        ensures product { IfOk result (IsProduct self.new first.now second.now) }
    {
        if let Some(value) = self.products.found(first, second)? {
            return Ok(value);
        }
        match self.cuts.product(&self.products, first, second)? {
            Some(value) => self.products.keep(first, second, value),
            None => self.made(first, second),
        }
    }

    // An atom that stands for the product from here on.
    fn made(&mut self, first: &Form, second: &Form) -> Result<Form, ProductsFault>
        requires first { IsDetermined self.old first.now }
        requires second { IsDetermined self.old second.now }
        ensures extends { Extends self.old self.new }
        ensures product { IfOk result (IsProduct self.new first.now second.now) }
    {
        let place = self.products.count();
        let value = self.products.make(first, second)?;
        self.cuts.note(&self.products, place);
        Ok(value)
    }

    /// Whether two sums are equal, where that is known or a cut tells it: `false` says nothing.
    ///
    /// # Errors
    /// `Limit` where the work of the search for cuts passes its limit, and `Memory`.
    pub fn are_equal(&mut self, first: &Form, second: &Form) -> Result<bool, ProductsFault>
        ensures same { self.new ≡ self.old }
        ensures equal { IfOk result (λ is. is ≡ true
            → AreEqualSums self.new first.now second.now) }
    {
        let first = self.normal(first)?;
        let second = self.normal(second)?;
        let sum = first.plus(&second)?;
        if let Some(one) = sum.as_constant() {
            return Ok(!one);
        }
        Ok(
            self.cuts
                .is_zero(&self.products, &sum, at_the_end(self.reach))?,
        )
    }

    /// Whatever the atoms are that stand for no product, all atoms have values. The function does
    /// nothing: its contract is the law.
    pub fn valuations(&self)
        ensures { HasValuations self.now }
    {
        self.products.valuations();
    }
}
