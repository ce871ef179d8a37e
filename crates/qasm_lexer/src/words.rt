// Tests of words.
ghost use Rattle.std.specs.Prelude.{◌≡◌};
ghost use Rattle.qasm_lexer.specs.Tokens.{is_identifier, is_number};

use text_places::{digits_len, name_len};

/// The most digits of a number.
pub const MOST_DIGITS: usize = 9;

/// Whether the word is a letter, then letters, digits and `_`.
pub fn is_identifier(word: &[u8]) -> bool
    ensures { result ≡ is_identifier word.now }
{
    if word.is_empty() {
        return false;
    }
    if !word[0].is_ascii_alphabetic() {
        return false;
    }
    name_len(word) == word.len()
}

/// Whether the word is digits, one or more.
pub fn is_number(word: &[u8]) -> bool
    ensures { result ≡ is_number word.now }
{
    if word.is_empty() {
        return false;
    }
    digits_len(word) == word.len()
}
