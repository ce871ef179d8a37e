// Whether products can be added to a target.
ghost use Rattle.std.specs.Prelude.{◌≡◌, IfOk, length};
ghost use Rattle.std.specs.List.{list_all};
ghost use Rattle.line_states.specs.Gathers.{all_fit, are_placed, fits, gathered, is_free};
ghost use Rattle.line_states.specs.Gathers.{is_held, is_other, is_placed};
ghost use Rattle.line_states.specs.inside.Places.{AreLow};

use crate::gathers::{Gather, Pair};
use crate::sets::is_one;
use bit_sums::{Product, apart};
use dependency_graph::Base;
use revc_base::{Key, Memory};
use std::alloc::Global;

// Whether each pair is a product, in order.
pub fn all_fit(
    alloc: Global,
    sets: &[Key<Base>],
    target: u32,
    pairs: &[Pair],
    products: &[Product],
) -> Result<bool, Memory>
    ensures { IfOk result (λ fit. fit ≡ all_fit sets.now target pairs.now products.now) }
{
    if pairs.len() != products.len() {
        return Ok(false);
    }
    for (k, pair) in pairs.iter().enumerate() {
        if !fits(alloc, sets, target, pair, &products[k])? {
            return Ok(false);
        }
    }
    Ok(true)
}

fn fits(
    alloc: Global,
    sets: &[Key<Base>],
    target: u32,
    pair: &Pair,
    product: &Product,
) -> Result<bool, Memory>
    ensures { IfOk result (λ fit. fit ≡ fits sets.now target pair.now product.now) }
{
    if !are_placed(sets.len(), target, pair) {
        return Ok(false);
    }
    is_held(alloc, sets, pair, product)
}

// ---- where the lines of factors stand

fn are_placed(lines: usize, target: u32, pair: &Pair) -> bool
    ensures { result ≡ are_placed lines target pair.now }
{
    is_placed(lines, target, &pair.first)
        && is_placed(lines, target, &pair.second)
        && pair.second.on != pair.first.on
        && are_others(pair.first.on, &pair.second.others)
}

fn is_placed(lines: usize, target: u32, gather: &Gather) -> bool
    ensures { result ≡ is_placed lines target gather.now }
{
    is_free(lines, target, gather.on)
        && are_free(lines, target, &gather.others)
        && are_others(gather.on, &gather.others)
}

fn are_free(lines: usize, target: u32, some: &[u32]) -> bool
    ensures { result ≡ list_all (is_free lines target) some.now }
{
    some.iter().all(|line| is_free(lines, target, *line))
}

// One of so many lines, and not the target.
fn is_free(lines: usize, target: u32, line: u32) -> bool
    ensures { result ≡ is_free lines target line }
{
    (line as usize) < lines && line != target
}

// Whether each is another line.
fn are_others(on: u32, some: &[u32]) -> bool
    ensures { result ≡ list_all (is_other on) some.now }
{
    some.iter().all(|line| *line != on)
}

// ---- what lines hold

// Whether the lines hold the factors of a product.
fn is_held(
    alloc: Global,
    sets: &[Key<Base>],
    pair: &Pair,
    product: &Product,
) -> Result<bool, Memory>
    requires first { AreLow (length sets.now) pair.now.first }
    requires second { AreLow (length sets.now) pair.now.second }
    ensures { IfOk result (λ held. held ≡ is_held sets.now pair.now product.now) }
{
    let first = gathered(alloc, sets, &pair.first)?;
    let second = gathered(alloc, sets, &pair.second)?;
    if !is_one(alloc, &first, product.first())? {
        return Ok(false);
    }
    is_one(alloc, &second, product.second())
}

// The sets of all lines of a factor together.
fn gathered(alloc: Global, sets: &[Key<Base>], gather: &Gather) -> Result<Vec<Base>, Memory>
    requires { AreLow (length sets.now) gather.now }
    ensures { IfOk result (λ set. set.items ≡ gathered sets.now gather.now) }
{
    let mut set = Vec::from_slice(alloc, sets[gather.on as usize].items())?;
    for line in &gather.others {
        set = apart(alloc, &set, sets[*line as usize].items())?;
    }
    Ok(set)
}
