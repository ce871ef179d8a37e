// Sums as functions of a cut.
ghost use Rattle.std.specs.Prelude.{◌≡◌, ◌<◌, ◌≤◌, List, true, length, IfOk, IfSome};
ghost use Rattle.linear_forms.specs.Forms.{FormView};
ghost use Rattle.product_sums.specs.Products.{IsProduct, ProductsView};
ghost use Rattle.sum_cuts.specs.Cuts.{AreOverCut, IsOverCut, IsProductOverCut, IsZero};
ghost use Rattle.sum_cuts.specs.inside.Functions.{IsFunction, IsOver};

use crate::Table;
use linear_forms::Form;
use product_sums::Known;
use revc_base::Memory;
use std::alloc::Global;

/// The most sums of a cut.
pub const MOST_SUMS: usize = 12;

/// A sum, and its truth table over a cut.
#[derive(Drop)]
pub struct Function {
    pub form: Form,
    pub table: Table,
}

/// A few sums, and functions of these. Function 0 is the constant 1, and the next ones are the sums
/// themselves.
#[derive(Drop)]
pub struct Cut {
    pub sums: Vec<Form>,
    pub functions: Vec<Function>,
}

impl Cut {
    /// The cut of these sums, with them and 1 as its functions.
    pub fn new(sums: Vec<Form>) -> Result<Cut, Memory>
        requires few { length sums.items ≤ 12 }
        ensures { IfOk result (λ cut. (t : ProductsView) → AreOverCut t cut) }
    {
        let alloc = *sums.allocator();
        let mut functions = Vec::new(alloc);
        functions.push(one(alloc))?;
        for place in 0..sums.len() {
            functions.push(variable(&sums, place)?)?;
        }
        Ok(Cut { sums, functions })
    }

    // The sum of the functions at some places.
    fn sum(&self, places: &[usize]) -> Result<Function, Memory>
        ensures { IfOk result (IsOver self.now) }
    {
        let mut sum = Function {
            form: Form::constant(*self.sums.allocator(), false),
            table: Table::none(),
        };
        for place in places {
            sum = self.with(sum, *place)?;
        }
        Ok(sum)
    }

    // A sum of functions with the one at a place, if there is one.
    fn with(&self, sum: Function, place: usize) -> Result<Function, Memory>
        ensures { IfOk result (λ f. IsOver self.now sum → IsOver self.now f) }
    {
        if place >= self.functions.len() {
            return Ok(sum);
        }
        let other = &self.functions[place];
        Ok(Function {
            form: sum.form.plus(&other.form)?,
            table: sum.table.plus(&other.table),
        })
    }

    /// The table of a form, where it is the sum of the functions at these places.
    pub fn table_of(&self, form: &Form, places: &[usize]) -> Result<Option<Table>, Memory>
        ensures { IfOk result (λ found. IfSome found (λ table. (t : ProductsView)
            → AreOverCut t self.now → IsOverCut t self.now.sums.items table.words form.now)) }
    {
        let sum = self.sum(places)?;
        if !is_same(&sum.form, form) {
            return Ok(None);
        }
        Ok(Some(sum.table))
    }

    /// The table of the product of two forms, where these are the sums of the functions at these
    /// places.
    pub fn product_table(
        &self,
        first: &Form,
        in_first: &[usize],
        second: &Form,
        in_second: &[usize],
    ) -> Result<Option<Table>, Memory>
        ensures { IfOk result (λ found. IfSome found (λ table. (t : ProductsView)
            → AreOverCut t self.now
            → IsProductOverCut t self.now.sums.items table.words first.now second.now)) }
    {
        let Some(one) = self.table_of(first, in_first)? else {
            return Ok(None);
        };
        let Some(other) = self.table_of(second, in_second)? else {
            return Ok(None);
        };
        Ok(Some(one.times(&other)))
    }

    /// Takes the value of a product in, where its factors are the sums of the functions at these
    /// places. Its table, where it was taken in.
    pub fn join(
        &mut self,
        product: &Known,
        in_first: &[usize],
        in_second: &[usize],
    ) -> Result<Option<Table>, Memory>
        ensures joined { (t : ProductsView)
            → IsProduct t product.now.first product.now.second product.now.value
            → AreOverCut t self.old → AreOverCut t self.new }
        ensures sums { self.new.sums ≡ self.old.sums }
        ensures table { IfOk result (λ found. IfSome found (λ table. (t : ProductsView)
            → AreOverCut t self.old → IsProductOverCut t self.old.sums.items table.words
            product.now.first product.now.second)) }
    {
        let (first, second) = (&product.first, &product.second);
        let Some(table) = self.product_table(first, in_first, second, in_second)? else {
            return Ok(None);
        };
        let form = product.value.copy()?;
        self.functions.push(Function { form, table })?;
        Ok(Some(table))
    }

    /// The form that has a table, where the sum of the functions at these places has it.
    pub fn form_of(&self, table: &Table, places: &[usize]) -> Result<Option<Form>, Memory>
        ensures { IfOk result (λ found. IfSome found (λ form. (t : ProductsView)
            → AreOverCut t self.now → IsOverCut t self.now.sums.items table.now.words form)) }
    {
        let sum = self.sum(places)?;
        if !sum.table.is_same(table) {
            return Ok(None);
        }
        Ok(Some(sum.form))
    }

    /// Whether a form is the sum of the functions at these places, and that is 0.
    pub fn is_zero(&self, form: &Form, places: &[usize]) -> Result<bool, Memory>
        ensures { IfOk result (λ is. is ≡ true → (t : ProductsView) → AreOverCut t self.now
            → IsZero t form.now) }
    {
        let Some(table) = self.table_of(form, places)? else {
            return Ok(false);
        };
        Ok(table.is_same(&Table::none()))
    }

    /// The sum of the functions at these places, where it is 0.
    pub fn zero(&self, places: &[usize]) -> Result<Option<Form>, Memory>
        ensures { IfOk result (λ found. IfSome found (λ form. (t : ProductsView)
            → AreOverCut t self.now → IsZero t form)) }
    {
        self.form_of(&Table::none(), places)
    }
}

// The constant 1.
fn one(alloc: Global) -> Function
    ensures { (sums : List FormView) → length sums ≤ 12 → IsFunction sums result }
{
    Function {
        form: Form::constant(alloc, true),
        table: Table::one(),
    }
}

// A sum of a cut as its function.
fn variable(sums: &[Form], place: usize) -> Result<Function, Memory>
    requires few { length sums.now ≤ 12 }
    requires low { place < length sums.now }
    ensures { IfOk result (IsFunction sums.now) }
{
    Ok(Function {
        form: sums[place].copy()?,
        table: Table::variable(place as u32),
    })
}

// Whether two forms are the same sum.
pub fn is_same(left: &Form, right: &Form) -> bool
    ensures { result ≡ true → left.now ≡ right.now }
{
    left.one() == right.one() && left.is_alike(right)
}
