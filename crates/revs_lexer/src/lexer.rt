// One pass over the bytes of a text, piece by piece.
ghost use Rattle.std.specs.Prelude.{◌≡◌, ◌≢◌, ◌⊎◌, ◌+◌, ◌<◌, ◌≤◌, ◌^◌, List, [], ◌∷◌};
ghost use Rattle.std.specs.Prelude.{take, drop, length};
ghost use Rattle.std.specs.Prelude.{IfOk, IfErr, IsErrOf, MatchResult, IsTrue, nat_eq, OnErr};
ghost use Rattle.std.specs.List.{find, starts_with};
ghost use Rattle.std.specs.Str.{bytes_eq};
ghost use Rattle.revc_base.specs.declared.limits.TheConstants.{MOST_NAME_BYTES};
ghost use Rattle.text_places.specs.Gaps.{HasNoGap};
ghost use Rattle.text_places.specs.Places.{place_after};
ghost use Rattle.revs_lexer.specs.inside.Pieces.{TakesFrom, StandsSo, HasNoLineFeed};
ghost use Rattle.revs_lexer.specs.Kinds.{tok_of};
ghost use Rattle.revs_lexer.specs.Spelling.{word_text, sign_text, is_identifier, Spells};
ghost use Rattle.revs_lexer.specs.Spelling.{IsWithinLimits};
ghost use Rattle.revs_lexer.specs.Tokens.{IsLongest, Refuses, IsTokens, IsRefused, closed, IsEnded};
ghost use Rattle.revs_lexer.specs.Tokens.{OneOutcome, SomeOutcome};
ghost use Rattle.revs_lexer.specs.declared.sign.Sign.{Sign};
ghost use Rattle.revs_lexer.specs.declared.token.LexFault.{LexFault};
ghost use Rattle.revs_lexer.specs.declared.token.Token.{Token};
ghost use Rattle.revs_lexer.specs.declared.word.Word.{Word};
ghost use Rattle.revs_lexer.specs.Limits.{LimitsAre};

use crate::packed::{Packed, TokenList};
use crate::{Kind, LexFault, Sign, Word};
use revc_base::{Place, Text};
use std::alloc::Global;
use text_places::{digits_len, gap_len, is_letter, name_len, number, place_after};

/// The most digits that a number has.
pub const MOST_DIGITS: usize = 4;

/// The law of limits: what number each is. The function does nothing: its contract is the law.
pub fn limits_are()
    ensures { LimitsAre }
{}

// The word that the bytes spell.
fn word_of(bytes: &[u8]) -> Option<Word>
    ensures { result ≡ find (λ word. bytes_eq (word_text word) bytes.now) Word.ALL }
{
    match bytes {
        b"main" => Some(Word::Main),
        b"let" => Some(Word::Let),
        b"fun" => Some(Word::Fun),
        b"clean" => Some(Word::Clean),
        b"assert" => Some(Word::Assert),
        b"append" => Some(Word::Append),
        b"rotate" => Some(Word::Rotate),
        b"reg" => Some(Word::Reg),
        b"true" => Some(Word::True),
        b"false" => Some(Word::False),
        b"bool" => Some(Word::Bool),
        b"for" => Some(Word::For),
        b"in" => Some(Word::In),
        b"do" => Some(Word::Do),
        b"revs" => Some(Word::Revs),
        _ => None,
    }
}

// The longest sign at the front of the text, which is the first in the table.
fn sign_at(text: &[u8]) -> Option<Sign>
    ensures { result ≡ find (λ sign. starts_with nat_eq text.now (sign_text sign)) Sign.ALL }
{
    let (first, rest) = text.split_first()?;
    match *first {
        b'<' if rest.starts_with(b">") => Some(Sign::Xor),
        b'<' if rest.starts_with(b"-") => Some(Sign::Assign),
        b'&' if rest.starts_with(b"&") => Some(Sign::And),
        b'-' if rest.starts_with(b">") => Some(Sign::Arrow),
        b'.' if rest.starts_with(b".") => Some(Sign::DotDot),
        single => single_sign(single),
    }
}

// The sign of one byte.
fn single_sign(byte: u8) -> Option<Sign>
    ensures { result ≡ find (λ sign. bytes_eq (sign_text sign) (byte ∷ [])) Sign.ALL }
{
    match byte {
        b'(' => Some(Sign::OpenRound),
        b')' => Some(Sign::CloseRound),
        b'[' => Some(Sign::OpenSquare),
        b']' => Some(Sign::CloseSquare),
        b'{' => Some(Sign::OpenCurly),
        b'}' => Some(Sign::CloseCurly),
        b':' => Some(Sign::Colon),
        b';' => Some(Sign::Semi),
        b'=' => Some(Sign::Equal),
        b'.' => Some(Sign::Dot),
        b'+' => Some(Sign::Plus),
        b'-' => Some(Sign::Minus),
        _ => None,
    }
}

// The word or the name that the bytes spell, which begin at this byte of the text.
fn name(bytes: &[u8], start: u32) -> Kind
    requires identifier { IsTrue (is_identifier bytes.now) }
    requires some { 1 ≤ length bytes.now }
    requires few { length bytes.now ≤ MOST_NAME_BYTES }
    ensures spelled { Spells bytes.now (tok_of result bytes.now) }
    ensures within { IsWithinLimits bytes.now (tok_of result bytes.now) }
    ensures stands { StandsSo start (length bytes.now) result }
{
    match word_of(bytes) {
        Some(word) => Kind::Word(word),
        None => Kind::Name {
            length: bytes.len() as u8,
            start,
        },
    }
}

// The longest token at the front of the text, and how many bytes it has; the text begins at this
// byte of a longer one.
fn token(text: &[u8], start: u32, at: Place) -> Result<(Kind, usize), LexFault>
    requires some { 0 < length text.now }
    requires no_gap { HasNoGap text.now }
    ensures in_range { IfOk result (λ found. (0 < found.1) × (found.1 ≤ length text.now)) }
    ensures longest { IfOk result (λ found. IsLongest text.now (take found.1 text.now)
        (drop found.1 text.now) (tok_of found.0 (take found.1 text.now))) }
    ensures within { IfOk result (λ found. IsWithinLimits (take found.1 text.now)
        (tok_of found.0 (take found.1 text.now))) }
    ensures stands { IfOk result (λ found. StandsSo start found.1 found.0) }
    ensures refused { IfErr result (λ fault. Refuses at text.now fault) }
{
    if is_letter(text[0]) {
        let len = name_len(text);
        if len > Text::MOST {
            return Err(LexFault::LongName(at));
        }
        return Ok((name(&text[..len], start), len));
    }
    if text[0].is_ascii_digit() {
        let len = digits_len(text);
        if len > MOST_DIGITS {
            return Err(LexFault::LongNumber(at));
        }
        return Ok((Kind::Number(number(&text[..len])), len));
    }
    match sign_at(text) {
        Some(sign) => Ok((Kind::Sign(sign), sign.text().len())),
        None => Err(LexFault::BadByte(at)),
    }
}

// Takes the piece at the front of the text, and keeps it where it is a token; the text begins at
// this byte of a longer one. The result is its length.
fn take_piece(
    packed: &mut Vec<Packed>,
    text: &[u8],
    start: u32,
    at: Place,
) -> Result<usize, LexFault>
    requires { 0 < length text.now }
    ensures in_range { IfOk result (λ len. (0 < len) × (len ≤ length text.now)) }
    ensures taken { IfOk result (λ len.
        TakesFrom start at text.now len packed.old.items packed.new.items) }
    ensures refused { IfErr result (λ fault.
        fault ≢ LexFault.Memory _ → Refuses at text.now fault) }
{
    let gap = gap_len(text);
    if gap > 0 {
        return Ok(gap);
    }
    let (kind, len) = token(text, start, at)?;
    packed.push(Packed { kind, at })?;
    Ok(len)
}

// The place behind a piece of a text that stands at a place. Only a piece of one byte may be a line
// feed.
fn place_behind(at: Place, piece: &[u8]) -> Place
    requires one_line { 1 < length piece.now → HasNoLineFeed piece.now }
    requires line { 1 ≤ at.line }
    requires column { 1 ≤ at.column }
    requires room { at.line + at.column + length piece.now ≤ 2 ^ 32 }
    ensures place { result ≡ place_after at piece.now }
    ensures line { 1 ≤ result.line }
    ensures column { 1 ≤ result.column }
    ensures room { result.line + result.column ≤ at.line + at.column + length piece.now }
{
    if piece.len() > 1 {
        return Place {
            line: at.line,
            column: at.column + piece.len() as u32,
        };
    }
    place_after(at, piece)
}

// The tokens or the first refusal.
fn cut<'t>(alloc: Global, text: &'t [u8]) -> Result<TokenList<'t>, LexFault>
    requires { length text.now + 1 < 2 ^ 32 }
    ensures tokens { IfOk result (λ all. (ts : List Token) × IsTokens text.now ts
        × (all ≡ closed text.now ts)) }
    ensures refused { IfErr result (λ fault.
        fault ≢ LexFault.Memory _ → IsRefused text.now fault) }
{
    let mut packed = Vec::new(alloc);
    let mut at = Place { line: 1, column: 1 };
    let mut start = 0;
    let mut rest = text;
    while !rest.is_empty() {
        let len = take_piece(&mut packed, rest, start, at)?;
        let (piece, left) = rest.split_at(len);
        at = place_behind(at, piece);
        start += len as u32;
        rest = left;
    }
    packed.push(Packed {
        kind: Kind::End,
        at,
    })?;
    Ok(TokenList::new(text, packed))
}

/// The tokens of the text, each with the place of its first byte, and then `End` at the place after
/// the last byte.
///
/// Lines and columns are counted from 1, a column in bytes; a line feed ends a line. The longest
/// token is taken at each place.
///
/// # Errors
///
/// The first place at which the text cannot be cut so: `BadByte` where no token, blank or comment
/// begins, `LongName` at a name of more than 64 bytes, `LongNumber` at a number of more than 4
/// digits. Beside that only `Memory`.
pub fn tokens<'t>(alloc: Global, text: &'t [u8]) -> Result<TokenList<'t>, LexFault>
    requires { length text.now + 1 < 2 ^ 32 }

    // The tokens of the text and no others.
    ensures tokens { IfOk result (λ all. (ts : List Token) × IsTokens text.now ts
        × (all ≡ closed text.now ts)) }
    ensures only_tokens { (ts : List Token) → IsTokens text.now ts →
        MatchResult result (λ all. all ≡ closed text.now ts) (λ fault. fault
        ≡ LexFault.Memory _) }

    // The first refusal of the text and no other.
    ensures refused { IfErr result (λ fault.
        fault ≢ LexFault.Memory _ → IsRefused text.now fault) }
    ensures only_refusal { (fault : LexFault) → IsRefused text.now fault →
        IsErrOf result fault ⊎ IsErrOf result (LexFault.Memory _) }

    // The last token is `End`, and no other is.
    ensures ended { IfOk result (λ all. IsEnded all) }
    ensures few { IfOk result (λ all. length all ≤ length text.now + 1) }
{
    cut(alloc, text)
}

/// A text is cut in one way only: it has one list of tokens or one first refusal, and not both.
pub fn one_outcome()
    ensures { OneOutcome }
{}

/// Each text has a list of tokens or a first refusal.
pub fn some_outcome()
    ensures { SomeOutcome }
{}
