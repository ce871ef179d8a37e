// Products that follow from what is known.
ghost use Rattle.std.specs.Prelude.{◌≡◌, ◌&&◌, ℕ, Bool, true, IfOk, IfSome};
ghost use Rattle.linear_forms.specs.Forms.{form_value};
ghost use Rattle.product_sums.specs.inside.Deriving.{Follows};
ghost use Rattle.product_sums.specs.inside.Tables.{HasFactors};

use crate::ProductsFault;
use crate::budget::Budget;
use crate::derive::derived;
use crate::index::Index;
use crate::known::Known;
use crate::marks::Mark;
use crate::search::search;
use linear_forms::Form;
use revc_base::Memory;

// The steps of a search.
const SEARCH_STEPS: usize = 16_384;

// The product, where a factor is a constant, or its mark is none or known: then it is a known one,
// or derived from that alone.
pub fn recalled(
    known: &[Known],
    first: &Form,
    second: &Form,
    index: &mut Index,
    budget: &mut Budget,
) -> Result<Option<Form>, ProductsFault>
    ensures { IfOk result (λ found. IfSome found (Follows known.now first.now second.now)) }
{
    if let Some(one) = first.as_constant() {
        return Ok(Some(scaled(second, one)?));
    }
    if let Some(one) = second.as_constant() {
        return Ok(Some(scaled(first, one)?));
    }
    budget.spend(first.len().saturating_add(second.len()))?;
    let mark = Mark::of(first, second);
    if mark.is_none() {
        return derived(known, first, second, &[], budget);
    }
    match index.recall(mark)? {
        Some(place) => at_place(known, place, first, second, budget),
        None => Ok(None),
    }
}

// The product, where it is the known one at a place, or derived from that alone.
fn at_place(
    known: &[Known],
    place: usize,
    first: &Form,
    second: &Form,
    budget: &mut Budget,
) -> Result<Option<Form>, ProductsFault>
    ensures { IfOk result (λ found. IfSome found (Follows known.now first.now second.now)) }
{
    if let Some(value) = value_at(known, place, first, second)? {
        return Ok(Some(value));
    }
    derived(known, first, second, &[place], budget)
}

// The product, where it is the known one at a place.
fn value_at(
    known: &[Known],
    place: usize,
    first: &Form,
    second: &Form,
) -> Result<Option<Form>, Memory>
    ensures { IfOk result (λ found. IfSome found (Follows known.now first.now second.now)) }
{
    let Some(k) = known.get(place) else {
        return Ok(None);
    };
    if !has_factors(k, first, second) {
        return Ok(None);
    }
    let value = k.value.copy()?;
    Ok(Some(value))
}

// The product, where it is the sum of known ones that a search finds.
pub fn searched(
    known: &[Known],
    first: &Form,
    second: &Form,
    index: &Index,
    budget: &mut Budget,
) -> Result<Option<Form>, ProductsFault>
    ensures { IfOk result (λ found. IfSome found (Follows known.now first.now second.now)) }
{
    budget.spend(SEARCH_STEPS)?;
    let Some(from) = search(known, index, first, second)? else {
        return Ok(None);
    };
    derived(known, first, second, &from, budget)
}

// The form, where it is taken once, and 0 where not.
fn scaled(form: &Form, one: bool) -> Result<Form, Memory>
    ensures { IfOk result (λ scaled. (atom : ℕ → Bool)
        → form_value atom scaled ≡ (form_value atom form.now && one)) }
{
    if one {
        form.copy()
    } else {
        Ok(Form::constant(form.allocator(), false))
    }
}

// Whether these are the factors of a known product.
fn has_factors(known: &Known, first: &Form, second: &Form) -> bool
    ensures { result ≡ true → HasFactors known.now first.now second.now }
{
    are_same(&known.first, first, &known.second, second)
        || are_same(&known.first, second, &known.second, first)
}

fn are_same(one: &Form, first: &Form, other: &Form, second: &Form) -> bool
    ensures { result ≡ true → (one.now ≡ first.now) × (other.now ≡ second.now) }
{
    is_same(one, first) && is_same(other, second)
}

fn is_same(one: &Form, other: &Form) -> bool
    ensures { result ≡ true → one.now ≡ other.now }
{
    one.one() == other.one() && one.is_alike(other)
}
