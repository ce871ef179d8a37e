// Single tokens.

ghost use Rattle.std.specs.Prelude.{◌≡◌, ◌≢◌, true, false, ℕ, List, [], ◌∷◌};
ghost use Rattle.std.specs.Prelude.{IfOk, IfErr, IsErrOf};
ghost use Rattle.std.specs.Prelude.{IfSome, IfNone};
ghost use Rattle.std.specs.Prelude.{MatchResult};
ghost use Rattle.revs_parser.specs.inside.Reading.{Heads, NotFirst, NoNumber, Reads, Halts};
ghost use Rattle.revs_parser.specs.inside.Reading.{name_first};
ghost use Rattle.revs_parser.specs.inside.Reading.{ReadsAnywhere, HaltsAnywhere};
ghost use Rattle.revs_parser.specs.inside.Reading.{ReadsForm, HaltsIn};
ghost use Rattle.revs_parser.specs.inside.Forms.{NoOpener, fixed_tok, fixed_mark};
ghost use Rattle.revs_terms.specs.Trees.{tree_of};
ghost use Rattle.revs_grammar.specs.Forms as g;
ghost use Rattle.revs_grammar.specs.Sentences.{token, kept_token};
ghost use Rattle.revs_parser.specs.declared.stop.Stop.{Stop};
ghost use Rattle.revs_lexer.specs.declared.token.Tok.TheVariants as toks;
ghost use Rattle.revs_lexer.specs.Kinds.{tok_of};
ghost use Rattle.revs_lexer.specs.Rest.{left};

use crate::stop::Stop;
use revc_base::{Place, Text};
use revs_lexer::{Kind, Rest, Sign, Word};
use revs_terms::{Name, Term};

// A token that is spelled in one way.
#[derive(Clone, Copy)]
enum Fixed {
    Sign(Sign),
    Word(Word),
}

fn is_fixed(kind: &Kind, fixed: Fixed) -> bool
    ensures is { result ≡ true → (bytes : List ℕ) → tok_of kind.now bytes ≡ fixed_tok fixed }
    ensures other { result ≡ false → (bytes : List ℕ) → tok_of kind.now bytes ≢ fixed_tok fixed }
{
    match (kind, fixed) {
        (Kind::Sign(first), Fixed::Sign(sign)) => *first == sign,
        (Kind::Word(first), Fixed::Word(word)) => *first == word,
        _ => false,
    }
}

// The place of a token and the tokens behind it, where it stands first.
fn after_fixed(tokens: Rest, fixed: Fixed) -> Option<(Place, Rest)>
    ensures found { IfSome result (λ found. Heads (fixed_tok fixed) found.0
        (left tokens.entry) (left found.1)) }
    ensures none { IfNone result (NotFirst (fixed_tok fixed) (left tokens.entry)) }
{
    let (first, rest) = tokens.split_first()?;
    if is_fixed(&first.kind, fixed) {
        Some((first.at, rest))
    } else {
        None
    }
}

/// The place of a sign and the tokens behind it, where it stands first.
pub fn after(tokens: Rest, sign: Sign) -> Option<(Place, Rest)>
    ensures found { IfSome result (λ found. Heads (toks.Sign sign) found.0
        (left tokens.entry) (left found.1)) }
    ensures none { IfNone result (NotFirst (toks.Sign sign) (left tokens.entry)) }
{
    after_fixed(tokens, Fixed::Sign(sign))
}

/// The place of a word and the tokens behind it, where it stands first.
pub fn after_word(tokens: Rest, word: Word) -> Option<(Place, Rest)>
    ensures found { IfSome result (λ found. Heads (toks.Word word) found.0
        (left tokens.entry) (left found.1)) }
    ensures none { IfNone result (NotFirst (toks.Word word) (left tokens.entry)) }
{
    after_fixed(tokens, Fixed::Word(word))
}

// The tokens behind a token, which has to stand first.
fn expect_fixed(tokens: Rest, fixed: Fixed) -> Result<Rest, Stop>
    ensures ok { IfOk result (λ rest. Reads (token (fixed_mark fixed) ∷ []) tt
        (left tokens.entry) (left rest)) }
    ensures halts { IfErr result
        (λ stop. Halts (token (fixed_mark fixed) ∷ []) (left tokens.entry) stop) }
    ensures exact { ¬ IsErrOf result (Stop.Memory _) }
{
    match after_fixed(tokens, fixed) {
        Some((_, rest)) => Ok(rest),
        None => Err(Stop::Syntax(tokens.len())),
    }
}

/// The tokens behind a sign, which has to stand first.
pub fn expect(tokens: Rest, sign: Sign) -> Result<Rest, Stop>
    ensures ok { IfOk result (λ rest. Reads (token (g.sign sign) ∷ []) tt
        (left tokens.entry) (left rest)) }
    ensures halts { IfErr result
        (λ stop. Halts (token (g.sign sign) ∷ []) (left tokens.entry) stop) }
    ensures exact { ¬ IsErrOf result (Stop.Memory _) }
{
    expect_fixed(tokens, Fixed::Sign(sign))
}

/// The tokens behind a word, which has to stand first.
pub fn expect_word(tokens: Rest, word: Word) -> Result<Rest, Stop>
    ensures ok { IfOk result (λ rest. Reads (token (g.word word) ∷ []) tt
        (left tokens.entry) (left rest)) }
    ensures halts { IfErr result
        (λ stop. Halts (token (g.word word) ∷ []) (left tokens.entry) stop) }
    ensures exact { ¬ IsErrOf result (Stop.Memory _) }
{
    expect_fixed(tokens, Fixed::Word(word))
}

/// The name that stands first, and the tokens behind it.
pub fn name(tokens: Rest) -> Result<(Name, Rest), Stop>
    ensures ok { IfOk result (λ read. Reads (kept_token g.any_name ∷ [])
        (read.0, tt) (left tokens.entry) (left read.1)) }
    ensures halts { IfErr result
        (λ stop. Halts (kept_token g.any_name ∷ []) (left tokens.entry) stop) }
    ensures memory { IsErrOf result (Stop.Memory _) → name_first (left tokens.entry) ≡ true }
{
    let Some((bytes, at, rest)) = tokens.split_name() else {
        return Err(Stop::Syntax(tokens.len()));
    };
    let text = Text::new(tokens.allocator(), bytes)?;
    Ok((Name { text, at, back: 0 }, rest))
}

// The number that stands first, its place, and the tokens behind it.
fn first_number(tokens: Rest) -> Option<(u32, Place, Rest)>
    ensures found { IfSome result (λ found. Heads (toks.Number found.0) found.1
        (left tokens.entry) (left found.2)) }
    ensures none { IfNone result (NoNumber (left tokens.entry)) }
{
    let (first, rest) = tokens.split_first()?;
    match first.kind {
        Kind::Number(n) => Some((n, first.at, rest)),
        _ => None,
    }
}

/// The number that stands first, its place, and the tokens behind it.
pub fn number(tokens: Rest) -> Result<(u32, Place, Rest), Stop>
    ensures ok { IfOk result (λ read. ReadsForm (g.common g.number) 0
        (record { value = read.0; at = read.1 }) (left tokens.entry) (left read.2)) }
    ensures halts { IfErr result (λ stop. HaltsIn (g.common g.number) 0 (left tokens.entry) stop) }
    ensures exact { ¬ IsErrOf result (Stop.Memory _) }
{
    match first_number(tokens) {
        Some(found) => Ok(found),
        None => Err(Stop::Syntax(tokens.len())),
    }
}

/// The tokens behind the number 2, which has to stand first, however it is spelled.
pub fn number_two(tokens: Rest) -> Result<Rest, Stop>
    ensures ok { IfOk result (λ rest. Reads (token g.two ∷ []) tt (left tokens.entry) (left rest)) }
    ensures halts { IfErr result (λ stop. Halts (token g.two ∷ []) (left tokens.entry) stop) }
    ensures exact { ¬ IsErrOf result (Stop.Memory _) }
{
    match first_number(tokens) {
        Some((n, _, rest)) => {
            if n == 2 {
                Ok(rest)
            } else {
                Err(Stop::Syntax(tokens.len()))
            }
        }
        None => Err(Stop::Syntax(tokens.len())),
    }
}

/// Whether a name stands first.
pub fn begins_name(tokens: Rest) -> bool
    ensures { result ≡ name_first (left tokens.entry) }
{
    match tokens.split_first() {
        Some((first, _)) => matches!(first.kind, Kind::Name { .. }),
        None => false,
    }
}

/// The base of one token that stands first, and the tokens behind it.
pub fn single_base(tokens: Rest) -> Result<(Term, Rest), Stop>
    requires { NoOpener (left tokens) }
    ensures { MatchResult result
        (λ read. ReadsAnywhere g.base (tree_of read.0) (left tokens.entry) (left read.1))
        (λ stop. HaltsAnywhere g.base (left tokens.entry) stop) }
{
    if let Some((at, behind)) = after_word(tokens, Word::True) {
        return Ok((Term::Bool(true, at), behind));
    }
    if let Some((at, behind)) = after_word(tokens, Word::False) {
        return Ok((Term::Bool(false, at), behind));
    }
    let (used, rest) = name(tokens)?;
    Ok((Term::Name(used), rest))
}
