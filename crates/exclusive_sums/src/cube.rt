// Cubes, products of literals, and their distance.
ghost use Rattle.std.specs.Prelude.{◌≡◌, ◌<◌, ◌≤◌, ◌++◌, map, true, false, IfOk, OnOk, List};
ghost use Rattle.std.specs.Option.{option_to_list};
ghost use Rattle.list_facts.specs.Lists.{IsRising};
ghost use Rattle.exclusive_sums.specs.Cubes.{IsCube, IsJoined, distance_of, positive};
ghost use Rattle.exclusive_sums.specs.inside.Merging.{flipped as flipped_of, third_of};
ghost use Rattle.exclusive_sums.specs.declared.cube.Literal.{Literal};

use revc_base::Memory;
use std::alloc::{AllocError, Global};
use std::marker::Model;

/// An input, counted from 0, or its negation.
#[derive(Clone, Copy, PartialEq, Eq)]
pub struct Literal {
    pub input: u32,
    pub positive: bool,
}

/// A product of literals of different inputs, which rise. Contracts see it as the list of its
/// literals.
#[derive(Drop)]
pub struct Cube {
    literals: Vec<Literal>,
}

impl Model for Cube {
    ghost Value = { List Literal };

    ghost view = { λ c. c.literals.items };

    ghost invariant = { λ c. IsCube c.literals.items };
}

impl Cube {
    /// The literals, by rising inputs. It takes no memory.
    pub fn literals(&self) -> &[Literal]
        ensures literals { result.now ≡ self.now }
        ensures cube { IsCube self.now }
    {
        &self.literals
    }
}

// The cube of a monomial's inputs as positive literals.
pub fn positive_cube(alloc: Global, inputs: &[u32]) -> Result<Cube, Memory>
    requires { IsRising inputs.now }
    ensures { IfOk result (λ cube. cube ≡ map positive inputs.now) }
{
    let literals = positive_literals(alloc, inputs)?;
    Ok(Cube { literals })
}

fn positive_literals(alloc: Global, inputs: &[u32]) -> Result<Vec<Literal>, AllocError>
    ensures { IfOk result (λ literals. literals.items ≡ map positive inputs.now) }
{
    inputs
        .iter()
        .map(|input| Literal {
            input: *input,
            positive: true,
        })
        .collect(alloc)
}

// How many inputs differ in their states.
pub fn distance(left: &[Literal], right: &[Literal]) -> usize
    requires left { IsCube left.now }
    requires right { IsCube right.now }
    ensures { result ≡ distance_of left.now right.now }
{
    let (mut i, mut j, mut count) = (0, 0, 0);
    while i < left.len() && j < right.len() {
        let (l, m) = (left[i], right[j]);
        count += usize::from(l != m);
        i += usize::from(l.input <= m.input);
        j += usize::from(m.input <= l.input);
    }
    count + (left.len() - i) + (right.len() - j)
}

// Whether at most one input differs in its state. Two cubes of as many literals that begin with
// different inputs differ in more.
pub fn are_close(left: &[Literal], right: &[Literal]) -> bool
    requires left { IsCube left.now }
    requires right { IsCube right.now }
    ensures close { result ≡ true → distance_of left.now right.now ≤ 1 }
    ensures far { result ≡ false → 1 < distance_of left.now right.now }
{
    if left.len() == right.len() && !left.is_empty() && left[0].input != right[0].input {
        return false;
    }
    distance(left, right) <= 1
}

// The cube with the third state of the one input whose states differ.
pub fn joined(alloc: Global, left: &Cube, right: &Cube) -> Result<Cube, Memory>
    ensures { IfOk result (IsJoined left.now right.now) }
{
    let (left, right) = (left.literals(), right.literals());
    let mut literals = Vec::new(alloc);
    let (mut i, mut j) = (0, 0);
    while i < left.len() && j < right.len() {
        let (l, m) = (left[i], right[j]);
        put(&mut literals, third(l, m))?;
        i += usize::from(l.input <= m.input);
        j += usize::from(m.input <= l.input);
    }
    put_flipped(&mut literals, &left[i..])?;
    put_flipped(&mut literals, &right[j..])?;
    Ok(Cube { literals })
}

// What stands in the joined cube for the lesser input of two literals, or for their one input.
fn third(l: Literal, m: Literal) -> Option<Literal>
    ensures { result ≡ third_of l m }
{
    if l.input < m.input {
        Some(flipped(l))
    } else if m.input < l.input {
        Some(flipped(m))
    } else if l.positive == m.positive {
        Some(l)
    } else {
        None
    }
}

fn flipped(literal: Literal) -> Literal
    ensures { result ≡ flipped_of literal }
{
    Literal {
        input: literal.input,
        positive: !literal.positive,
    }
}

fn put(literals: &mut Vec<Literal>, literal: Option<Literal>) -> Result<(), Memory>
    ensures { OnOk result (literals.new.items ≡ literals.old.items ++ option_to_list literal) }
{
    let Some(literal) = literal else {
        return Ok(());
    };
    literals.push(literal)?;
    Ok(())
}

fn put_flipped(literals: &mut Vec<Literal>, rest: &[Literal]) -> Result<(), Memory>
    ensures { OnOk result (literals.new.items ≡ literals.old.items ++ map flipped_of rest.now) }
{
    for literal in rest {
        literals.push(flipped(*literal))?;
    }
    Ok(())
}
