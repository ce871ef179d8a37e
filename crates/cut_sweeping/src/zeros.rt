// Sums that are 0, so that atoms may be left out of others.
ghost use Rattle.std.specs.Prelude.{◌≡◌, IfOk, IfSome};
ghost use Rattle.product_sums.specs.Products.{ProductsView};
ghost use Rattle.sum_cuts.specs.Cuts.{AreEqualSums, AreOverCut, IsZero};
ghost use Rattle.cut_sweeping.specs.inside.Zeros.{AreZeros};

use crate::gone::Gone;
use cut_search::{Relation, has_atom, last_atom, members};
use linear_forms::Form;
use plan_tools::Work;
use revc_base::Memory;
use std::alloc::Global;
use sum_cuts::Cut;

/// The most sums that are added to leave atoms out of one.
const MOST_STEPS: usize = 4096;

/// Sums that are 0 wherever atoms have the values of their products. For each one an atom of it is
/// left out of other sums.
#[derive(Drop)]
pub struct Zeros {
    pub forms: Vec<Form>,
    pub gone: Gone,
}

impl Zeros {
    pub fn new(alloc: Global) -> Zeros
        ensures { (t : ProductsView) → AreZeros t result }
    {
        Zeros {
            forms: Vec::new(alloc),
            gone: Gone::new(alloc),
        }
    }

    /// An equal sum with such atoms left out.
    pub fn normal(&self, form: &Form) -> Result<Form, Memory>
        ensures { IfOk result (λ sum. (t : ProductsView) → AreZeros t self.now
            → AreEqualSums t form.now sum) }
    {
        let mut sum = form.copy()?;
        for _step in 0..MOST_STEPS {
            let Some(zero) = self.next(&sum) else {
                return Ok(sum);
            };
            sum = sum.plus(zero)?;
        }
        Ok(sum)
    }

    // A sum that is 0, for which an atom of this one is left out.
    fn next(&self, form: &Form) -> Option<&Form>
        ensures { IfSome result (λ zero. (t : ProductsView) → AreZeros t self.now
            → IsZero t zero.now) }
    {
        self.at(self.gone.place_in(form)?)
    }

    fn at(&self, place: usize) -> Option<&Form>
        ensures { IfSome result (λ zero. (t : ProductsView) → AreZeros t self.now
            → IsZero t zero.now) }
    {
        self.forms.get(place)
    }

    /// A sum was made of two others. Where atoms of it are left out, it is noted how: most often as
    /// it was in the first one.
    pub fn follow(
        &mut self,
        work: &mut Work,
        first: &Form,
        second: &Form,
        sum: &Form,
    ) -> Result<(), Memory>
        ensures { (t : ProductsView) → AreZeros t self.old → AreZeros t self.new }
    {
        let Some(places) = self.gone.start(work, first, second, sum) else {
            return Ok(());
        };
        let zero = self.leaving(sum, &places)?;
        self.gone.note(work, sum, self.forms.len(), zero.len());
        self.forms.push(zero)?;
        Ok(())
    }

    // The sum that is 0 and leaves such atoms out of another one, where it begins with some.
    fn leaving(&self, sum: &Form, places: &[usize]) -> Result<Form, Memory>
        ensures { IfOk result (λ zero. (t : ProductsView) → AreZeros t self.now
            → IsZero t zero) }
    {
        let begun = self.with_all(sum, places)?;
        let normal = self.normal(&begun)?;
        normal.plus(sum)
    }

    // A sum with those at some places.
    fn with_all(&self, form: &Form, places: &[usize]) -> Result<Form, Memory>
        ensures { IfOk result (λ sum. (t : ProductsView) → AreZeros t self.now
            → AreEqualSums t form.now sum) }
    {
        let mut sum = form.copy()?;
        for place in places {
            let Some(zero) = self.at(*place) else {
                return Ok(sum);
            };
            sum = sum.plus(zero)?;
        }
        Ok(sum)
    }

    /// Takes in what relations of the functions of a cut say.
    pub fn learn_all(
        &mut self,
        work: &mut Work,
        cut: &Cut,
        relations: &[Relation],
    ) -> Result<(), Memory>
        ensures { (t : ProductsView) → AreOverCut t cut.now → AreZeros t self.old
            → AreZeros t self.new }
    {
        for relation in relations {
            self.learn(work, cut, *relation)?;
        }
        Ok(())
    }

    fn learn(&mut self, work: &mut Work, cut: &Cut, relation: Relation) -> Result<(), Memory>
        ensures { (t : ProductsView) → AreOverCut t cut.now → AreZeros t self.old
            → AreZeros t self.new }
    {
        match self.zero(work, cut, relation)? {
            Some(zero) => self.put(work, relation.atom, zero),
            None => Ok(()),
        }
    }

    /// Takes in a sum that is 0, for which its last atom is left out of others.
    pub fn keep(&mut self, work: &mut Work, zero: Form) -> Result<(), Memory>
        ensures { (t : ProductsView) → IsZero t zero → AreZeros t self.old
            → AreZeros t self.new }
    {
        match last_atom(&zero) {
            Some(atom) => self.put(work, atom, zero),
            None => Ok(()),
        }
    }

    // Takes in a sum that is 0, for which an atom is left out of others, if it has that.
    fn put(&mut self, work: &mut Work, atom: u32, zero: Form) -> Result<(), Memory>
        ensures { (t : ProductsView) → IsZero t zero → AreZeros t self.old
            → AreZeros t self.new }
    {
        if self.gone.has(atom) || !has_atom(&zero, atom) {
            return Ok(());
        }
        self.gone.put(work, atom, self.forms.len());
        self.forms.push(zero)?;
        Ok(())
    }

    // The sum that a relation says to be 0.
    fn zero(&self, work: &mut Work, cut: &Cut, relation: Relation) -> Result<Option<Form>, Memory>
        ensures { IfOk result (λ found. IfSome found (λ form. (t : ProductsView)
            → AreOverCut t cut.now → AreZeros t self.now → IsZero t form)) }
    {
        let places = members(work, &relation.set);
        let Some(zero) = cut.zero(&places)? else {
            return Ok(None);
        };
        self.normal(&zero).map(Some)
    }
}
