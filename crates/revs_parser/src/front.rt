// What stands in front: operators, and the tokens that open a level.

ghost use Rattle.std.specs.Prelude.{IfOk, IfErr, IfSome, IfNone};
ghost use Rattle.revs_grammar.specs.Forms as g;
ghost use Rattle.revs_lexer.specs.Rest.{left};
ghost use Rattle.revs_parser.specs.inside.Reading.{Heads, HaltsAtLevels};
ghost use Rattle.revs_parser.specs.inside.Forms.{opening, NoOpener, ReadsOperator, NoOperator};

use crate::leaf::{after, after_word};
use crate::numbers::num;
use crate::stop::Stop;
use revc_base::Place;
use revs_grammar::Profile;
use revs_lexer::{Rest, Sign, Word};
use revs_terms::Num;
use std::alloc::Global;

/// An operator with one operand, and its place.
#[derive(Drop)]
pub enum Operator {
    Clean(Place),
    Assert(Place),
    Rotate(Num, Place),
}

/// What opens a level in a base.
#[derive(Clone, Copy)]
pub enum Opener {
    Register,
    Bracket,
    Block,
}

/// The operator that stands first, and the tokens of its operand.
pub fn first_operator(
    alloc: Global,
    profile: Profile,
    tokens: Rest,
) -> Result<Option<(Operator, Rest)>, Stop>
    ensures found { IfOk result (λ read. IfSome read
        (λ found. ReadsOperator profile found.0 (left tokens.entry) (left found.1))) }
    ensures none { IfOk result (λ read. IfNone read (NoOperator (left tokens.entry))) }
    ensures halts { IfErr result
        (λ stop. HaltsAtLevels (g.in_profile profile g.application) (left tokens.entry) stop) }
{
    if let Some((at, behind)) = after_word(tokens, Word::Clean) {
        return Ok(Some((Operator::Clean(at), behind)));
    }
    if let Some((at, behind)) = after_word(tokens, Word::Assert) {
        return Ok(Some((Operator::Assert(at), behind)));
    }
    let Some((at, behind)) = after_word(tokens, Word::Rotate) else {
        return Ok(None);
    };
    let (by, rest) = num(alloc, profile, behind)?;
    Ok(Some((Operator::Rotate(by, at), rest)))
}

/// The token that opens a level in a base, its place, and the tokens behind it.
pub fn first_opener(tokens: Rest) -> Option<(Opener, Place, Rest)>
    ensures found { IfSome result (λ found. Heads (opening found.0) found.1
        (left tokens.entry) (left found.2)) }
    ensures none { IfNone result (NoOpener (left tokens.entry)) }
{
    if let Some((at, behind)) = after_word(tokens, Word::Reg) {
        return Some((Opener::Register, at, behind));
    }
    if let Some((at, behind)) = after(tokens, Sign::OpenRound) {
        return Some((Opener::Bracket, at, behind));
    }
    let (at, behind) = after(tokens, Sign::OpenCurly)?;
    Some((Opener::Block, at, behind))
}
