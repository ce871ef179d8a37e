// Sums as functions of many others, by decision diagrams.
ghost use Rattle.std.specs.Prelude.{◌≡◌, ◌≤◌, true, length, IfOk, OnOk};
ghost use Rattle.product_sums.specs.Products.{IsProduct};
ghost use Rattle.sum_cuts.specs.Cuts.{IsZero};
ghost use Rattle.sum_cuts.specs.declared.wide.Judgement.TheVariants as judgements;
ghost use Rattle.sum_cuts.specs.inside.Wide.{AreWide, AreWideWith};

use crate::cut::is_same;
use decision_diagram::{Dd, DdFault, Diagram};
use linear_forms::Form;
use product_sums::{Known, Products};
use revc_base::Memory;

/// The most sums of a wide cut.
pub const MOST_WIDE: usize = 192;

/// A product as a function of a cut: its place in the table, and the functions of which its factors
/// are the sums. It becomes the next function but one.
#[derive(Drop)]
pub struct Step {
    pub place: usize,
    pub first: Vec<usize>,
    pub second: Vec<usize>,
}

/// Products that are functions of a cut, and the functions of which a form is the sum. Function 0
/// is the constant 1, and the next ones are the sums of the cut.
#[derive(Drop)]
pub struct Steps {
    pub steps: Vec<Step>,
    pub goal: Vec<usize>,
}

// A sum, and the number of its function.
#[derive(Drop)]
struct Numbered {
    form: Form,
    number: Dd,
}

// A cut, and sums that are functions of it.
#[derive(Drop)]
struct WideCut {
    sums: Vec<Form>,
    diagram: Diagram,
    functions: Vec<Numbered>,
}

impl WideCut {
    fn new(products: &Products, sums: Vec<Form>, nodes: u32) -> Result<WideCut, DdFault>
        requires few { length sums.items ≤ MOST_WIDE }
        requires some { 1 ≤ nodes }
        ensures { IfOk result (AreWide products.now) }
    {
        let _ = products.count(); // the contract speaks of it
        let alloc = *sums.allocator();
        let mut diagram = Diagram::new(alloc, sums.len() as u32, nodes)?;
        let mut functions = Vec::new(alloc);
        functions.push(Numbered {
            form: Form::constant(alloc, true),
            number: diagram.truth(true),
        })?;
        for place in 0..sums.len() {
            let number = diagram.input(place as u32)?;
            let form = sums[place].copy()?;
            functions.push(Numbered { form, number })?;
        }
        Ok(WideCut {
            sums,
            diagram,
            functions,
        })
    }

    // The sum of the functions at some places.
    fn sum(&mut self, products: &Products, places: &[usize]) -> Result<Numbered, DdFault>
        requires { AreWide products.now self.old }
        ensures { IfOk result (AreWideWith products.now self.new) }
    {
        let mut sum = Numbered {
            form: Form::constant(*self.sums.allocator(), false),
            number: self.diagram.truth(false),
        };
        for place in places {
            sum = self.with(products, sum, *place)?;
        }
        Ok(sum)
    }

    // A sum of functions with the one at a place, if there is one.
    fn with(
        &mut self,
        products: &Products,
        sum: Numbered,
        place: usize,
    ) -> Result<Numbered, DdFault>
        requires { AreWideWith products.now self.old sum }
        ensures { IfOk result (AreWideWith products.now self.new) }
    {
        let _ = products.count(); // the contract speaks of it
        if place >= self.functions.len() {
            return Ok(sum);
        }
        let other = &self.functions[place];
        let number = self.diagram.xor(sum.number, other.number)?;
        let form = sum.form.plus(&other.form)?;
        Ok(Numbered { form, number })
    }

    // Takes the value of a product in, where its factors are the sums of the functions at these
    // places, behind the first factor.
    fn join(&mut self, products: &Products, product: &Known, step: &Step) -> Result<(), DdFault>
        requires wide { AreWide products.now self.old }
        requires product { IsProduct products.now product.now.first product.now.second
            product.now.value }
        ensures { OnOk result (AreWide products.now self.new) }
    {
        let at = self.functions.len();
        let first = self.sum(products, &step.first)?;
        self.functions.push(first)?;
        let second = self.sum(products, &step.second)?;
        self.times(products, product, at, second)
    }

    // Takes the value of a product in, where its factors are the function at a place and a sum.
    fn times(
        &mut self,
        products: &Products,
        product: &Known,
        at: usize,
        second: Numbered,
    ) -> Result<(), DdFault>
        requires wide { AreWideWith products.now self.old second }
        requires product { IsProduct products.now product.now.first product.now.second
            product.now.value }
        ensures { OnOk result (AreWide products.now self.new) }
    {
        let _ = products.count(); // the contract speaks of it
        if at >= self.functions.len() {
            return Ok(());
        }
        let first = &self.functions[at];
        if !is_same(&first.form, &product.first) || !is_same(&second.form, &product.second) {
            return Ok(());
        }
        let number = self.diagram.and(first.number, second.number)?;
        let form = product.value.copy()?;
        self.functions.push(Numbered { form, number })?;
        Ok(())
    }

    // Whether a form is the sum of the functions at these places, and that is 0.
    fn is_zero(
        &mut self,
        products: &Products,
        form: &Form,
        places: &[usize],
    ) -> Result<bool, DdFault>
        requires { AreWide products.now self.old }
        ensures { IfOk result (λ is. is ≡ true → IsZero products.now form.now) }
    {
        let sum = self.sum(products, places)?;
        if !is_same(&sum.form, form) {
            return Ok(false);
        }
        match self.diagram.constant(sum.number) {
            Some(bit) => Ok(!bit),
            None => Ok(false),
        }
    }
}

/// What a cut says of a form: that it is 0; that it is another function, or was not proposed
/// rightly; or that its diagram is full.
#[derive(Clone, Copy, PartialEq, Eq)]
pub enum Judgement {
    Zero,
    Other,
    Full,
}

/// Whether a form is 0 as a function of a cut. The diagram has at most so many nodes.
pub fn judge(
    products: &Products,
    sums: Vec<Form>,
    steps: &Steps,
    form: &Form,
    nodes: u32,
) -> Result<Judgement, Memory>
    ensures { IfOk result (λ said. said ≡ judgements.Zero → IsZero products.now form.now) }
{
    match is_zero(products, sums, steps, form, nodes) {
        Ok(true) => Ok(Judgement::Zero),
        Ok(false) => Ok(Judgement::Other),
        Err(DdFault::Full { .. }) => Ok(Judgement::Full),
        Err(DdFault::Memory(memory)) => Err(memory),
    }
}

fn is_zero(
    products: &Products,
    sums: Vec<Form>,
    steps: &Steps,
    form: &Form,
    nodes: u32,
) -> Result<bool, DdFault>
    ensures { IfOk result (λ is. is ≡ true → IsZero products.now form.now) }
{
    if sums.len() > MOST_WIDE || nodes == 0 {
        return Ok(false);
    }
    let mut cut = WideCut::new(products, sums, nodes)?;
    for step in &steps.steps {
        if let Some(known) = products.known(step.place) {
            cut.join(products, known, step)?;
        }
    }
    cut.is_zero(products, form, &steps.goal)
}
