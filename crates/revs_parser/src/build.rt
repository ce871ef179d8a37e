// Terms made of their parts.

ghost use Rattle.std.specs.Prelude.{◌≡◌};
ghost use Rattle.revs_grammar.specs.Productions.{bound_of, parts_of};
ghost use Rattle.revs_terms.specs.Trees.{tree_of};
ghost use Rattle.revs_terms.specs.Trees as shape;
ghost use Rattle.revs_parser.specs.inside.Reading.{Makes};
ghost use Rattle.revs_parser.specs.inside.Forms.{operated};

use crate::front::Operator;
use crate::stop::{Stop, both};
use revc_base::Place;
use revs_terms::{Lambda, Name, Part, Term};
use std::alloc::Global;

// Two terms, each in a box of its own.
fn boxed(alloc: Global, first: Term, second: Term) -> Result<(Box<Term>, Box<Term>), Stop>
    ensures { Makes (λ made. (made.0.value ≡ first) × (made.1.value ≡ second)) result }
{
    let (second, first) = both(second, Box::new(alloc, first))?;
    let second = Box::new(alloc, second)?;
    Ok((first, second))
}

/// An assignment.
pub fn assignment(alloc: Global, left: Term, right: Term) -> Result<Term, Stop>
    ensures { Makes (λ term. tree_of term ≡ shape.assign (tree_of left) (tree_of right)) result }
{
    let (left, right) = boxed(alloc, left, right)?;
    Ok(Term::Assign(left, right))
}

/// Two registers, one behind the other.
pub fn joined(alloc: Global, first: Term, second: Term, at: Place) -> Result<Term, Stop>
    ensures { Makes (λ term. tree_of term ≡ shape.append (tree_of first) (tree_of second) at)
        result }
{
    let (first, second) = boxed(alloc, first, second)?;
    Ok(Term::Append(first, second, at))
}

/// An operator with its operand.
pub fn operation(alloc: Global, operator: Operator, operand: Term) -> Result<Term, Stop>
    ensures { Makes (λ term. tree_of term ≡ operated operator (tree_of operand)) result }
{
    let operand = Box::new(alloc, operand)?;
    Ok(match operator {
        Operator::Clean(at) => Term::Clean(operand, at),
        Operator::Assert(at) => Term::Assert(operand, at),
        Operator::Rotate(by, at) => Term::Rotate(by, operand, at),
    })
}

/// These parts of a term, or with no part the term.
pub fn with_parts(alloc: Global, inner: Term, parts: Vec<Part>) -> Result<Term, Stop>
    ensures { Makes (λ term. tree_of term ≡ parts_of (tree_of inner) parts.items) result }
{
    if parts.is_empty() {
        return Ok(inner);
    }
    Ok(Term::At(Box::new(alloc, inner)?, parts))
}

/// The function of these names.
pub fn function_of(alloc: Global, names: Vec<Name>, body: Term, at: Place) -> Result<Term, Stop>
    ensures { Makes (λ term. tree_of term ≡ shape.function names.items (tree_of body) at) result }
{
    Ok(Term::Fun(Box::new(alloc, Lambda { names, body })?, at))
}

/// The value that a `let` binds: the body, or with names the function of these names, which stands
/// at the first of them.
pub fn bound_value(alloc: Global, names: Vec<Name>, body: Term) -> Result<Term, Stop>
    ensures { Makes (λ value. tree_of value ≡ bound_of names.items (tree_of body)) result }
{
    let Some(first) = names.first() else {
        return Ok(body);
    };
    let at = first.at;
    function_of(alloc, names, body, at)
}
