// Programs, and why a list of tokens is none.

ghost use Rattle.std.specs.Prelude.{◌≡◌, ◌<◌, ◌^◌, [], ◌∷◌, length, ℕ, IfOk};
ghost use Rattle.std.specs.Prelude.{IfErr, IfSome, IfNone, IsErrOf, MatchResult};
ghost use Rattle.std.specs.Result.{ForOk, ForErr};
ghost use Rattle.revc_base.specs.declared.place.Place.{Place};
ghost use Rattle.revs_lexer.specs.Tokens.{IsEnded};
ghost use Rattle.revs_lexer.specs.Rest.{left};
ghost use Rattle.revs_grammar.specs.Forms as g;
ghost use Rattle.revs_grammar.specs.Answers.{HasSentence, IsProgramOf, PassesAt, IsInputs};
ghost use Rattle.revs_grammar.specs.Faults.{IsSyntax, IsNesting, Verdict, IsVerdict};
ghost use Rattle.revs_terms.specs.Programs.{AreParams, width_of};
ghost use Rattle.revs_terms.specs.Trees.{tree_of};
ghost use Rattle.revs_grammar.specs.Sentences.{form};
ghost use Rattle.revs_parser.specs.inside.Reading.{ReadsForm, HaltsIn, Gives, GivesForm, end_first};
ghost use Rattle.revs_parser.specs.inside.Forms.{ReadsParameters, ReadsProfile, ReadsProgram};
ghost use Rattle.revs_parser.specs.inside.Forms.{IsRefusal};
ghost use Rattle.revs_parser.specs.Results.{IsRefused, IsRefusedFor, IsAnswer};
ghost use Rattle.revs_parser.specs.declared.stop.Stop.{Stop};
ghost use Rattle.revs_parser.specs.declared.program.ParseFault.{ParseFault};
ghost use Rattle.revs_parser.specs.declared.program.ParseFault.TheVariants as faults;

use crate::expression::Reader;
use crate::leaf::{after, after_word, expect, expect_word, name, number, number_two};
use crate::stop::{Stop, put};
use revc_base::{Memory, Place};
use revs_grammar::Profile;
use revs_lexer::{Kind, Rest, Sign, TokenList, Word};
use revs_tape::limits::MOST_INPUTS;
use revs_terms::{Param, Program, Term};
use std::alloc::Global;

/// Why a list of tokens is no program.
#[derive(Clone, Copy)]
pub enum ParseFault {
    /// This token, counted from 0, cannot stand at this place.
    Syntax { token: u32, at: Place },
    /// The token at this place is the first that opens level 101.
    Nesting(Place),
    /// At the name of this parameter a width is 0, or the widths so far add up to more than 1,024.
    Inputs(Place),
    /// There was no memory left.
    Memory(Memory),
}

// The width of a parameter and its `)`.
fn width(tokens: Rest) -> Result<(Option<u32>, Rest), Stop>
    ensures ok { IfOk result (λ read. ReadsForm (g.common g.width) 0 read.0
        (left tokens.entry) (left read.1)) }
    ensures halts { IfErr result (λ stop. HaltsIn (g.common g.width) 0 (left tokens.entry) stop) }
    ensures exact { ¬ IsErrOf result (Stop.Memory _) }
{
    let Some((_, behind)) = after(tokens, Sign::OpenSquare) else {
        let rest = expect(tokens, Sign::CloseRound)?;
        return Ok((None, rest));
    };
    let (bits, _, rest) = number(behind)?;
    let rest = expect(rest, Sign::CloseSquare)?;
    let rest = expect(rest, Sign::CloseRound)?;
    Ok((Some(bits), rest))
}

fn parameter(tokens: Rest) -> Result<(Param, Rest), Stop>
    ensures { GivesForm (g.common g.parameter) 0 (λ param. param) tokens.entry result }
{
    let Some((_, behind)) = after(tokens, Sign::OpenRound) else {
        return Err(Stop::Syntax(tokens.len()));
    };
    let (name, rest) = name(behind)?;
    let rest = expect(rest, Sign::Colon)?;
    let rest = expect_word(rest, Word::Bool)?;
    let (width, rest) = width(rest)?;
    Ok((Param { name, width }, rest))
}

// { param } behind the parameters so far.
fn parameters(mut params: Vec<Param>, tokens: Rest) -> Result<(Vec<Param>, Rest), Stop>
    ensures { Gives (λ all. ReadsParameters params.items all.items)
        (form (g.common g.parameters) 0 ∷ []) tokens.entry result }
{
    let mut rest = tokens;
    while let Some((_, _)) = after(rest, Sign::OpenRound) {
        rest = put(&mut params, parameter(rest))?;
    }
    Ok((params, rest))
}

// The profile of a program, and the tokens behind its `main`.
fn profile(tokens: Rest) -> Result<(Profile, Rest), Stop>
    ensures ok { IfOk result (λ read. ReadsProfile read.0 (left tokens.entry) (left read.1)) }
    ensures halts { IfErr result (λ stop. HaltsIn (g.common g.program) 0 (left tokens.entry) stop) }
    ensures exact { ¬ IsErrOf result (Stop.Memory _) }
{
    if let Some((_, behind)) = after_word(tokens, Word::Main) {
        return Ok((Profile::One, behind));
    }
    let rest = expect_word(tokens, Word::Revs)?;
    let rest = number_two(rest)?;
    let rest = expect_word(rest, Word::Main)?;
    Ok((Profile::Two, rest))
}

// A whole sentence.
fn sentence(alloc: Global, tokens: Rest) -> Result<(Vec<Param>, Term, Rest), Stop>
    ensures { MatchResult result
        (λ read. ReadsProgram read.0.items (tree_of read.1) (left tokens.entry) (left read.2))
        (λ stop. HaltsIn (g.common g.program) 0 (left tokens.entry) stop) }
{
    let (profile, behind) = profile(tokens)?;
    let (first, rest) = parameter(behind)?;
    let mut params = Vec::new(alloc);
    params.push(first)?;
    let (params, rest) = parameters(params, rest)?;
    let rest = expect(rest, Sign::Equal)?;
    let reader = Reader {
        alloc,
        profile,
        level: 1,
    };
    let (body, rest) = reader.expression(rest)?;
    Ok((params, body, rest))
}

// Whether the end stands first.
fn ends(tokens: Rest) -> bool
    ensures { result ≡ end_first (left tokens.entry) }
{
    match tokens.split_first() {
        Some((first, _)) => matches!(first.kind, Kind::End),
        None => false,
    }
}

// The parameters and the body of the sentence before the end.
fn whole(alloc: Global, tokens: &TokenList) -> Result<(Vec<Param>, Term), Stop>
    requires { IsEnded tokens.now }
    ensures ok { IfOk result (λ read. HasSentence tokens.now read.0.items (tree_of read.1)) }
    ensures refused { IfErr result (λ stop. IsRefusal tokens.now stop) }
{
    let (params, body, rest) = sentence(alloc, tokens.all())?;
    if !ends(rest) {
        return Err(Stop::Syntax(rest.len()));
    }
    Ok((params, body))
}

fn bits_of(param: &Param) -> u32
    ensures { result ≡ width_of param.now.width }
{
    match param.width {
        None => 1,
        Some(bits) => bits,
    }
}

// The name's place of the first parameter at which the limits are passed.
fn passed_at(params: &[Param]) -> Option<Place>
    ensures none { IfNone result (AreParams params.now) }
    ensures found { IfSome result (λ at. PassesAt params.now at) }
{
    let mut inputs: u32 = 0;
    let mut rest = params;
    while let Some((param, behind)) = rest.split_first() {
        let bits = bits_of(param);
        if bits == 0 || MOST_INPUTS - inputs < bits {
            return Some(param.name.at);
        }
        inputs += bits;
        rest = behind;
    }
    None
}

// The fault for this halt.
fn refusal(tokens: &TokenList, stop: Stop) -> ParseFault
    requires few { length tokens.now < 2 ^ 32 }
    requires refused { IsRefusal tokens.now stop }
    ensures refused { IsRefused tokens.now result }
    ensures memory { result ≡ faults.Memory _ → stop ≡ Stop.Memory _ }
{
    match stop {
        Stop::Syntax(left) => {
            let token = tokens.len() - left;
            ParseFault::Syntax {
                token: token as u32,
                at: tokens.place(token),
            }
        }
        Stop::Nesting(left) => ParseFault::Nesting(tokens.place(tokens.len() - left)),
        Stop::Memory(memory) => ParseFault::Memory(memory),
    }
}

// The answer for what was read: want of memory is answered where it was met, and nowhere else.
fn answer(tokens: &TokenList, read: Result<(Vec<Param>, Term), Stop>) -> Result<Program, ParseFault>
    requires few { length tokens.now < 2 ^ 32 }
    requires sentence { ForOk read (λ read. HasSentence tokens.now read.0.items (tree_of read.1)) }
    requires refused { ForErr read (λ stop. IsRefusal tokens.now stop) }
    ensures program { IfOk result (λ p. IsProgramOf tokens.now p.params.items (tree_of p.body)) }
    ensures refused { IfErr result (λ fault. IsRefusedFor tokens.now fault) }
    ensures exact { (verdict : Verdict) → IsVerdict tokens.now verdict → IsAnswer verdict result }
    ensures memory { IsErrOf result (faults.Memory _) → IsErrOf read (Stop.Memory _) }
{
    match read {
        Ok((params, body)) => match passed_at(&params) {
            Some(at) => Err(ParseFault::Inputs(at)),
            None => Ok(Program { params, body }),
        },
        Err(stop) => Err(refusal(tokens, stop)),
    }
}

/// The program of which the tokens before `End` are the sentence, with every `back` 0.
///
/// The list ends with `End` and holds no other. Recursive descent with one token of look-ahead,
/// linear in the tokens.
///
/// # Errors
///
/// The first token at which no program can go on (`Syntax`), the first that opens level 101
/// (`Nesting`), or, in a whole sentence, the first parameter whose width is 0 or with which there
/// are more than 1,024 inputs (`Inputs`). Each list of tokens has one of these answers, and beside
/// it only `Memory`.
pub fn parse(alloc: Global, tokens: &TokenList) -> Result<Program, ParseFault>
    requires ended { IsEnded tokens.now }
    requires few { length tokens.now < 2 ^ 32 }
    ensures program { IfOk result (λ p. IsProgramOf tokens.now p.params.items (tree_of p.body)) }
    ensures syntax { (number : ℕ) (at : Place) → IsErrOf result (faults.Syntax number at)
        → IsSyntax tokens.now number at }
    ensures nesting { (at : Place) → IsErrOf result (faults.Nesting at) → IsNesting tokens.now at }
    ensures inputs { (at : Place) → IsErrOf result (faults.Inputs at) → IsInputs tokens.now at }
    ensures exact { (verdict : Verdict) → IsVerdict tokens.now verdict → IsAnswer verdict result }
{
    answer(tokens, whole(alloc, tokens))
}
