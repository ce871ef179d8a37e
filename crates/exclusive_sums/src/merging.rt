// Merging the monomials of a polynomial into few cubes.
ghost use Rattle.std.specs.Prelude.{◌≡◌, ℕ, ◌<◌, length, IfOk, IfSome, IsNone, OnOk};
ghost use Rattle.std.specs.List.{AllByRecursion};
ghost use Rattle.list_facts.specs.Lists.{IsRising};
ghost use Rattle.exclusive_sums.specs.Cubes.{AreFarApart, IsExclusiveSumOf, IsFirstClosePair};
ghost use Rattle.exclusive_sums.specs.Cubes.{Merges, cubes_of, distance_at};
ghost use Rattle.exclusive_sums.specs.inside.Merging.{IsCloseBehind, IsStep};

use crate::cube::{Cube, are_close, distance, joined, positive_cube};
use crate::monomial::Monomial;
use crate::poly::Poly;
use revc_base::Memory;
use std::alloc::Global;

/// Cubes whose exclusive or is the polynomial's function. It begins with one cube for each
/// monomial, all literals positive. As long as there are two cubes at distance 0 or 1 (the number
/// of inputs that are absent, positive or negative otherwise in the one than in the other), the
/// first such pair is taken out, by the least first place and then the least second place. At
/// distance 0 nothing comes in its place; at distance 1 a cube is put at the end, with the third
/// state for the input that differs. This is the simplification of exclusive sums of products by
/// cubes at distance 0 and 1, as in EXORCISM (Mishchenko and Perkowski, 2001).
pub fn merge(alloc: Global, poly: &Poly) -> Result<Vec<Cube>, Memory>
    ensures recipe { IfOk result (λ cubes. Merges (cubes_of poly.now) cubes.items) }
    ensures sum { IfOk result (λ cubes. IsExclusiveSumOf poly.now cubes.items) }
{
    let mut cubes = positive_cubes(alloc, poly.monomials())?;
    while let Some((first, second)) = first_close_pair(&cubes) {
        merge_pair(alloc, &mut cubes, first, second)?;
    }
    Ok(cubes)
}

fn positive_cubes(alloc: Global, monomials: &[Monomial]) -> Result<Vec<Cube>, Memory>
    requires { AllByRecursion IsRising monomials.now }
    ensures { IfOk result (λ cubes. cubes.items ≡ cubes_of monomials.now) }
{
    let mut cubes = Vec::with_capacity(alloc, monomials.len())?;
    for monomial in monomials {
        cubes.push(positive_cube(alloc, monomial.inputs())?)?;
    }
    Ok(cubes)
}

// The first pair of cubes at distance 0 or 1.
fn first_close_pair(cubes: &[Cube]) -> Option<(usize, usize)>
    ensures none { IsNone result → AreFarApart cubes.now }
    ensures some { IfSome result (λ pair. IsFirstClosePair cubes.now pair.0 pair.1) }
{
    for first in 0..cubes.len() {
        if let Some(second) = first_close_to(cubes, first) {
            return Some((first, second));
        }
    }
    None
}

// The first cube behind this one at distance 0 or 1 from it.
fn first_close_to(cubes: &[Cube], first: usize) -> Option<usize>
    requires { first < length cubes.now }
    ensures none { IsNone result → (k : ℕ) → first < k → k < length cubes.now
        → 1 < distance_at cubes.now first k }
    ensures some { IfSome result (λ second. IsCloseBehind cubes.now first second) }
{
    let left = cubes[first].literals();
    for second in first + 1..cubes.len() {
        if are_close(left, cubes[second].literals()) {
            return Some(second);
        }
    }
    None
}

// Takes out two close cubes, and puts the joined cube at the end where they differ.
fn merge_pair(
    alloc: Global,
    cubes: &mut Vec<Cube>,
    first: usize,
    second: usize,
) -> Result<(), Memory>
    requires { IsFirstClosePair cubes.old.items first second }
    ensures { OnOk result (IsStep cubes.old.items cubes.new.items) }
{
    let right = cubes.remove(second);
    let left = cubes.remove(first);
    if distance(left.literals(), right.literals()) == 0 {
        return Ok(());
    }
    cubes.push(joined(alloc, &left, &right)?)?;
    Ok(())
}
