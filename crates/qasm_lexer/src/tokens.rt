// The tokens of a text, one after another.
ghost use Rattle.std.specs.Prelude.{◌≡◌, ◌+◌, ◌<◌, ◌≤◌, ◌^◌, [], length, take, drop};
ghost use Rattle.text_places.specs.Gaps.{HasNoGap};
ghost use Rattle.text_places.specs.Places.{place_after};
ghost use Rattle.qasm_lexer.specs.Tokens.{whole, IsNext, Moves, Takes, Left};

use revc_base::Place;
use std::marker::Model;
use text_places::{digits_len, gap_len, name_len, place_after};

/// A token and the place of its first byte. The end of the text counts as a token without bytes.
#[derive(Clone, Copy, Debug)]
pub struct Token<'t> {
    pub word: &'t [u8],
    pub at: Place,
}

/// What is left of a text, and its place.
#[derive(Drop)]
pub struct Tokens<'t> {
    at: Place,
    rest: &'t [u8],
}

impl<'t> Model for Tokens<'t> {
    ghost Value = { Left };

    ghost view = { λ t. record { at = t.at; bytes = t.rest.now } };

    ghost invariant = { λ t. (1 ≤ t.at.line) × (1 ≤ t.at.column)
        × (t.at.line + t.at.column + length t.rest.now ≤ 2 ^ 32) };
}

impl<'t> Tokens<'t> {
    /// All tokens of a text.
    pub fn new(text: &'t [u8]) -> Tokens<'t>
        requires { length text.now + 1 < 2 ^ 32 }
        ensures { result ≡ whole text.now }
    {
        Tokens {
            at: Place { line: 1, column: 1 },
            rest: text,
        }
    }

    /// The first token, which is then taken out, with the gaps before it.
    pub fn next(&mut self) -> Token<'t>
        ensures { Takes self.old self.new result.word.now result.at }
    {
        self.skip_gaps();
        let at = self.at;
        let word = self.take(token_len(self.rest));
        Token { word, at }
    }

    // Takes out all gaps before the first token.
    fn skip_gaps(&mut self)
        ensures gaps { Moves self.old self.new [] }
        ensures none { HasNoGap self.new.bytes }
    {
        let mut len = gap_len(self.rest);
        while len > 0 {
            let _ = self.take(len);
            len = gap_len(self.rest);
        }
    }

    // So many bytes.
    fn take(&mut self, len: usize) -> &'t [u8]
        requires { len ≤ length self.old.bytes }
        ensures piece { result.now ≡ take len self.old.bytes }
        ensures rest { self.new.bytes ≡ drop len self.old.bytes }
        ensures place { self.new.at ≡ place_after self.old.at (take len self.old.bytes) }
    {
        let (piece, rest) = self.rest.split_at(len);
        self.at = place_after(self.at, piece);
        self.rest = rest;
        piece
    }
}

// How many bytes the token at the front of the text has: 0 at its end, and 1 for a byte that begins
// none.
fn token_len(text: &[u8]) -> usize
    requires { HasNoGap text.now }
    ensures in_range { result ≤ length text.now }
    ensures end { result ≡ 0 → text.now ≡ [] }
    ensures next { 0 < result → IsNext text.now (take result text.now) (drop result text.now) }
{
    if text.is_empty() {
        return 0;
    }
    if text[0].is_ascii_alphabetic() {
        return name_len(text);
    }
    if text.starts_with(b"2.0") {
        return 3;
    }
    if text[0].is_ascii_digit() {
        return digits_len(text);
    }
    if text.starts_with(b"\"qelib1.inc\"") {
        return 12;
    }
    1
}
