// Numbers: in profile 1 a number token, in profile 2 a sum of units.

ghost use Rattle.std.specs.Prelude.{◌≡◌, IfSome, IfNone, [], ◌∷◌};
ghost use Rattle.revs_grammar.specs.Forms as g;
ghost use Rattle.revs_grammar.specs.Productions.{digits_of};
ghost use Rattle.revs_grammar.specs.Sentences.{form};
ghost use Rattle.revs_grammar.specs.declared.profile.Profile.TheVariants as profiles;
ghost use Rattle.revs_lexer.specs.declared.token.Tok.TheVariants as toks;
ghost use Rattle.revs_lexer.specs.Rest.{left};
ghost use Rattle.revs_terms.specs.Numbers.{plus};
ghost use Rattle.revs_parser.specs.inside.Reading.{Heads, Skips, Gives, GivesForm, Makes};
ghost use Rattle.revs_parser.specs.inside.Forms.{step_sign, NoStep};

use crate::leaf::{after, begins_name, name, number};
use crate::stop::Stop;
use revc_base::Place;
use revs_grammar::Profile;
use revs_lexer::{Rest, Sign};
use revs_terms::{Num, Step, Steps, Sum, Unit};
use std::alloc::Global;

// unit = number | name
fn unit(tokens: Rest) -> Result<(Unit, Rest), Stop>
    ensures { GivesForm (g.common g.unit) 0 (λ unit. unit) tokens.entry result }
{
    if begins_name(tokens) {
        let (used, rest) = name(tokens)?;
        return Ok((Unit::Name(used), rest));
    }
    let (value, at, rest) = number(tokens)?;
    Ok((Unit::Digits(value, at), rest))
}

// Whether the sign in front of a unit takes it away, where such a sign stands first, its place, and
// the tokens behind it.
fn first_sign(tokens: Rest) -> Option<(bool, Place, Rest)>
    ensures found { IfSome result (λ found. Heads (toks.Sign (step_sign found.0)) found.1
        (left tokens.entry) (left found.2)) }
    ensures none { IfNone result (NoStep (left tokens.entry)) }
{
    if let Some((at, behind)) = after(tokens, Sign::Plus) {
        return Some((false, at, behind));
    }
    let (at, behind) = after(tokens, Sign::Minus)?;
    Some((true, at, behind))
}

// { + unit | - unit }
fn more_steps(alloc: Global, tokens: Rest) -> Result<(Vec<Step>, Rest), Stop>
    ensures { Gives (λ steps. Skips (form (g.common g.units) 0 ∷ []) (steps.items, tt))
        (form (g.common g.units) 0 ∷ []) tokens.entry result }
{
    let mut steps = Vec::new(alloc);
    let mut rest = tokens;
    while let Some((minus, _, behind)) = first_sign(rest) {
        let (unit, left) = unit(behind)?;
        steps.push(Step { minus, unit })?;
        rest = left;
    }
    Ok((steps, rest))
}

// The number of a unit and the steps behind it. Digits alone take no memory.
fn number_of(alloc: Global, first: Unit, more: Vec<Step>) -> Result<Num, Stop>
    ensures { Makes (λ number. number ≡ plus first ∷ more.items) result }
{
    if more.is_empty() {
        if let Unit::Digits(value, at) = first {
            return Ok(of_digits(value, at));
        }
    }
    let sum = Box::new(alloc, Sum { first, more })?;
    Ok(Num {
        steps: Steps::Sum(sum),
    })
}

// The number of digits alone.
fn of_digits(value: u32, at: Place) -> Num
    ensures { result ≡ plus (digits_of (record { value = value; at = at })) ∷ [] }
{
    Num {
        steps: Steps::Digits(value, at),
    }
}

// A number token alone.
fn digits(tokens: Rest) -> Result<(Num, Rest), Stop>
    ensures { GivesForm (g.in_profile profiles.One g.num) 0 (λ number. number) tokens.entry result }
{
    let (value, at, rest) = number(tokens)?;
    Ok((of_digits(value, at), rest))
}

// unit { + unit | - unit }
fn units(alloc: Global, tokens: Rest) -> Result<(Num, Rest), Stop>
    ensures { GivesForm (g.in_profile profiles.Two g.num) 0 (λ number. number) tokens.entry result }
{
    let (first, rest) = unit(tokens)?;
    let (more, rest) = more_steps(alloc, rest)?;
    let number = number_of(alloc, first, more)?;
    Ok((number, rest))
}

/// The number that stands first, as the profile has numbers, and the tokens behind it.
pub fn num(alloc: Global, profile: Profile, tokens: Rest) -> Result<(Num, Rest), Stop>
    ensures { GivesForm (g.in_profile profile g.num) 0 (λ number. number) tokens.entry result }
{
    match profile {
        Profile::One => digits(tokens),
        Profile::Two => units(alloc, tokens),
    }
}
