ghost use Rattle.std.specs.Prelude.{◌≡◌};
ghost use Rattle.revs_lexer.specs.declared.token.LexFault.TheVariants as faults;

use crate::{Sign, Word};
use revc_base::{Memory, Place, Text, WantOfMemory};

/// What a token is, as contracts see it.
#[derive(Drop)]
pub enum Tok {
    /// A letter or `_`, then letters, digits and `_`, and no word: 1 to 64 bytes.
    Name(Text),
    /// The decimal value of 1 to 4 digits.
    Number(u32),
    Word(Word),
    Sign(Sign),
    /// The end of the text.
    End,
}

/// A token, and the place of its first byte.
#[derive(Drop)]
pub struct Token {
    pub tok: Tok,
    pub at: Place,
}

/// What a token is, beside the text that it stands in.
#[derive(Clone, Copy)]
pub enum Kind {
    /// The name of so many bytes that begins at this byte of the text, counted from 0.
    Name { length: u8, start: u32 },
    Number(u32),
    Word(Word),
    Sign(Sign),
    End,
}

/// Why a text has no tokens.
#[derive(Clone, Copy, Debug, PartialEq, Eq)]
pub enum LexFault {
    /// The byte at this place begins no token, blank or comment.
    BadByte(Place),
    /// The name that begins at this place has more than 64 bytes.
    LongName(Place),
    /// The number that begins at this place has more than 4 digits.
    LongNumber(Place),
    /// There was no memory left.
    Memory(Memory),
}

impl<M: WantOfMemory> From<M> for LexFault {
    ghost from_gives = { λ _ e. e ≡ faults.Memory _ };

    fn from(want: M) -> LexFault {
        LexFault::Memory(want.memory())
    }
}
