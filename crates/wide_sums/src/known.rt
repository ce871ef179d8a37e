// Forms of sums, over nodes whose forms are known.
ghost use Rattle.std.specs.Prelude.{◌∷◌, [], IfOk, IfSome};
ghost use Rattle.dependency_graph.specs.declared.node.Base.TheVariants as bases;
ghost use Rattle.wide_sums.specs.inside.Forms.{AreProductsWord, IsFormOf, IsProductWord};
ghost use Rattle.wide_sums.specs.inside.Forms.{IsSumForm, IsWordOf};

use crate::form::{Form, ones};
use crate::{WideProduct, WideSum};
use dependency_graph::Base;
use revc_base::Memory;
use std::alloc::Global;

/// A node whose form is known.
#[derive(Drop)]
pub struct Known {
    pub node: u32,
    pub form: Form,
}

// The axes of which factors are to be sums, and the nodes whose forms are known.
#[derive(Clone, Copy)]
struct Given<'g> {
    axes: &'g [Form],
    known: &'g [Known],
}

/// The form of a sum; none where a factor is no sum of axes.
pub fn form_of_sum(
    alloc: Global,
    axes: &[Form],
    known: &[Known],
    sum: &WideSum,
) -> Result<Option<Form>, Memory>
    ensures { IfOk result (λ found. IfSome found (IsSumForm axes.now known.now sum.now)) }
{
    let given = Given { axes, known };
    let Some(word) = word_of_products(alloc, given, sum.products())? else {
        return Ok(None);
    };
    let form = form_of(alloc, known, sum.bits())?;
    Ok(Some(Form {
        bits: form.bits,
        word: form.word ^ word ^ ones(sum.one()),
    }))
}

// The word of the sum of some products.
fn word_of_products(
    alloc: Global,
    given: Given<'_>,
    products: &[WideProduct],
) -> Result<Option<u64>, Memory>
    ensures { IfOk result (λ found.
        IfSome found (AreProductsWord given.entry.axes.now given.entry.known.now products.now)) }
{
    let mut sum = 0;
    for product in products {
        let Some(word) = word_of_product(alloc, given, product)? else {
            return Ok(None);
        };
        sum ^= word;
    }
    Ok(Some(sum))
}

// The word of a product.
fn word_of_product(
    alloc: Global,
    given: Given<'_>,
    product: &WideProduct,
) -> Result<Option<u64>, Memory>
    ensures { IfOk result (λ found.
        IfSome found (IsProductWord given.entry.axes.now given.entry.known.now product.now)) }
{
    let Some(first) = word_of(alloc, given, product.first())? else {
        return Ok(None);
    };
    let Some(second) = word_of(alloc, given, product.second())? else {
        return Ok(None);
    };
    Ok(Some(first & second))
}

// The word of some bits; none where they are no sum of axes.
fn word_of(alloc: Global, given: Given<'_>, bits: &[Base]) -> Result<Option<u64>, Memory>
    ensures { IfOk result (λ found.
        IfSome found (IsWordOf given.entry.axes.now given.entry.known.now bits.now)) }
{
    let form = form_of(alloc, given.known, bits)?;
    let form = form.reduced(alloc, given.axes)?;
    Ok(form.word_alone())
}

// The form of some bits.
fn form_of(alloc: Global, known: &[Known], bits: &[Base]) -> Result<Form, Memory>
    ensures { IfOk result (IsFormOf known.now bits.now) }
{
    let mut form = Form::zero(alloc);
    for base in bits {
        let next = form_of_base(alloc, known, *base)?;
        form = form.plus(alloc, &next)?;
    }
    Ok(form)
}

// The form of a base: itself, where none is known.
fn form_of_base(alloc: Global, known: &[Known], base: Base) -> Result<Form, Memory>
    ensures { IfOk result (IsFormOf known.now (base ∷ [])) }
{
    match base {
        Base::Input(_) => Form::bit(alloc, base),
        Base::Node(node) => form_of_node(alloc, known, node),
    }
}

// The form of a node: itself, where none is known.
fn form_of_node(alloc: Global, known: &[Known], node: u32) -> Result<Form, Memory>
    ensures { IfOk result (IsFormOf known.now (bases.Node node ∷ [])) }
{
    for one in known {
        if one.node == node {
            return one.form.copy(alloc);
        }
    }
    Form::bit(alloc, Base::Node(node))
}
