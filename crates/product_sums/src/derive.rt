// Products that are sums of known ones.
ghost use Rattle.std.specs.Prelude.{IfOk, IfSome};
ghost use Rattle.product_sums.specs.inside.Deriving.{Follows, IsCollected, IsPairOf};

use crate::ProductsFault;
use crate::budget::Budget;
use crate::known::Known;
use linear_forms::{Basis, Form, Pair, linear_sum};
use revc_base::Memory;

// The most products of a derivation, so that all factors fit a basis.
const MOST_TERMS: usize = 31;

// The product as the sum of the values of these known ones and of factors, where it is.
pub fn derived(
    known: &[Known],
    first: &Form,
    second: &Form,
    from: &[usize],
    budget: &mut Budget,
) -> Result<Option<Form>, ProductsFault>
    ensures { IfOk result (λ found. IfSome found (Follows known.now first.now second.now)) }
{
    if from.len() > MOST_TERMS {
        return Ok(None);
    }
    let basis = basis_of(known, first, second, from)?;
    let Some(all) = gather(known, &basis, first, second, from, budget)? else {
        return Ok(None);
    };
    let Some(factor) = linear_sum(&all.pairs, basis.len()) else {
        return Ok(None);
    };
    Ok(Some(basis.form(factor)?.plus(&all.sums)?))
}

// A basis of all factors.
fn basis_of(known: &[Known], first: &Form, second: &Form, from: &[usize]) -> Result<Basis, Memory> {
    let mut basis = Basis::new(first.allocator());
    basis.widen(first)?;
    basis.widen(second)?;
    for place in from {
        if let Some(k) = known.get(*place) {
            basis.widen(&k.first)?;
            basis.widen(&k.second)?;
        }
    }
    Ok(basis)
}

// The factors of all products, and the sum of the values of the known ones.
#[derive(Drop)]
struct Collected {
    pairs: Vec<Pair>,
    sums: Form,
}

fn gather(
    known: &[Known],
    basis: &Basis,
    first: &Form,
    second: &Form,
    from: &[usize],
    budget: &mut Budget,
) -> Result<Option<Collected>, ProductsFault>
    ensures { IfOk result (λ found. IfSome found (λ all.
        IsCollected known.now first.now second.now basis.now all.pairs.items all.sums)) }
{
    let alloc = first.allocator();
    let Some(pair) = pair_of(basis, first, second)? else {
        return Ok(None);
    };
    let mut pairs = Vec::from_slice(alloc, &[pair])?;
    let mut sums = Form::constant(alloc, false);
    for place in from {
        let Some(k) = known.get(*place) else {
            return Ok(None);
        };
        let Some(pair) = pair_of(basis, &k.first, &k.second)? else {
            return Ok(None);
        };
        budget.spend(sums.len())?;
        pairs.push(pair)?;
        sums = sums.plus(&k.value)?;
    }
    Ok(Some(Collected { pairs, sums }))
}

// The product of two forms over a basis.
fn pair_of(basis: &Basis, first: &Form, second: &Form) -> Result<Option<Pair>, Memory>
    ensures { IfOk result (λ found. IfSome found (IsPairOf basis.now first.now second.now)) }
{
    let Some(first) = basis.factor(first)? else {
        return Ok(None);
    };
    let Some(second) = basis.factor(second)? else {
        return Ok(None);
    };
    Ok(Some(Pair { first, second }))
}
