// The lines of a text, and the words of a line.
ghost use Rattle.std.specs.Prelude.{◌≡◌, ℕ, ◌+◌, ◌<◌, ◌≤◌, ◌^◌, ◌==◌, List, [], ◌∷◌, length};
ghost use Rattle.std.specs.Prelude.{MatchOption, option_copied, not, min};
ghost use Rattle.std.specs.Option.{option_map};
ghost use Rattle.std.specs.List.{prefix_len};
ghost use Rattle.std.specs.Char.{is_ascii_digit};
ghost use Rattle.real_format.specs.Words.{is_blank, is_comment, said_lines, said_words};
ghost use Rattle.real_format.specs.inside.Reading.{begins_name, single, is_nil, number_of};
ghost use Rattle.real_format.specs.inside.Lines.{TakesLine, LinesView};

use crate::file::RealFault;
use std::marker::Model;

fn is_blank(byte: u8) -> bool
    ensures { result ≡ is_blank byte }
{
    byte == b' ' || (byte == b'\t' || byte == b'\r')
}

fn is_comment(word: &[u8]) -> bool
    ensures { result ≡ is_comment word.now }
{
    !word.is_empty() && word[0] == b'#'
}

// Whether a name may begin so: with a byte that is no sign and no `#`.
pub fn begins_name(word: &[u8]) -> bool
    ensures { result ≡ begins_name word.now }
{
    !word.is_empty() && !(word[0] == b'-' || word[0] == b'#')
}

// The words of a line that are left, up to its comment. Contracts see their list.
#[derive(Drop)]
pub struct Words<'t> {
    rest: &'t [u8],
}

impl<'t> Model for Words<'t> {
    ghost Value = { List (List ℕ) };

    ghost view = { λ w. said_words w.rest.now };
}

impl<'t> Words<'t> {
    // The first word, which is then taken out.
    pub fn next(&mut self) -> Option<&'t [u8]>
        ensures { MatchOption result ((self.old ≡ []) × (self.new ≡ []))
            (λ word. self.old ≡ word.now ∷ self.new) }
    {
        let (_, begun) = self.rest.split_at(blank_len(self.rest));
        if begun.is_empty() || is_comment(begun) {
            return None;
        }
        let (word, rest) = begun.split_at(word_len(begun));
        self.rest = rest;
        Some(word)
    }

    // The one word that is left, where it is one.
    pub fn only(&mut self) -> Option<&'t [u8]>
        ensures { option_copied result ≡ single self.old }
    {
        let word = self.next()?;
        if self.next().is_some() {
            return None;
        }
        Some(word)
    }

    // Whether no word is left.
    pub fn is_done(&mut self) -> bool
        ensures { result ≡ is_nil self.old }
    {
        self.next().is_none()
    }
}

fn blank_len(text: &[u8]) -> usize
    ensures len { result ≡ prefix_len is_blank text.now }
    ensures within { result ≤ length text.now }
{
    text.iter().take_while(|byte| is_blank(**byte)).count()
}

fn word_len(text: &[u8]) -> usize
    ensures len { result ≡ prefix_len (λ b. not (is_blank b)) text.now }
    ensures within { result ≤ length text.now }
{
    text.iter().take_while(|byte| !is_blank(**byte)).count()
}

// The lines of a text that are left, and the number of the last one that was taken, from 1.
// Contracts see the number and the words of each line.
#[derive(Drop)]
pub struct Lines<'t> {
    number: u32,
    rest: &'t [u8],
}

impl<'t> Model for Lines<'t> {
    ghost Value = { LinesView };

    ghost view = { λ l. record { number = l.number; left = said_lines l.rest.now } };

    ghost invariant = { λ l. l.number + length l.rest.now + 1 < 2 ^ 32 };
}

impl<'t> Lines<'t> {
    // All lines of a text.
    pub fn new(text: &'t [u8]) -> Lines<'t>
        requires { length text.now + 1 < 2 ^ 32 }
        ensures { result ≡ record { number = 0; left = said_lines text.now } }
    {
        Lines {
            number: 0,
            rest: text,
        }
    }

    // The first line, which is then taken out.
    pub fn next(&mut self) -> Option<Words<'t>>
        ensures { MatchOption result ((self.old.left ≡ []) × (self.new ≡ self.old))
            (TakesLine self.old self.new) }
    {
        if self.rest.is_empty() {
            return None;
        }
        let (line, behind) = self.rest.split_at(line_len(self.rest));
        let (_, rest) = behind.split_at(behind.len().min(1));
        self.rest = rest;
        self.number += 1;
        Some(Words { rest: line })
    }

    // The number of the line that was taken last, or 0.
    pub fn number(&self) -> u32
        ensures number { result ≡ self.now.number }
        ensures more { self.now.number + 1 < 2 ^ 32 }
    {
        self.number
    }

    // What refuses a text that ends where another line is wanted.
    pub fn end_fault(&self) -> RealFault
        ensures { result ≡ RealFault.Line (self.now.number + 1) }
    {
        let number = self.number() + 1;
        RealFault::Line { number }
    }
}

fn line_len(text: &[u8]) -> usize
    ensures len { result ≡ prefix_len (λ b. not (b == 10)) text.now }
    ensures within { result ≤ length text.now }
{
    text.iter().take_while(|byte| **byte != b'\n').count()
}

// The number that the digits write, or the limit plus 1 where it is above the limit; nothing where
// a byte is no digit.
pub fn number(word: &[u8], most: u32) -> Option<u32>
    requires { most < 2 ^ 24 }
    ensures { result ≡ option_map (λ n. min n (most + 1)) (number_of word.now) }
{
    if word.is_empty() {
        return None;
    }
    let mut value = 0;
    for byte in word {
        if !byte.is_ascii_digit() {
            return None;
        }
        value = (10 * value + u32::from(*byte - b'0')).min(most + 1);
    }
    Some(value)
}
