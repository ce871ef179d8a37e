// The words of the language.
ghost use Rattle.std.specs.Prelude.{◌≡◌};
ghost use Rattle.revs_lexer.specs.Spelling.{word_text};

/// A word of the language. Only programs of profile 2 hold the words from `For` on.
#[derive(Clone, Copy, Debug, PartialEq, Eq)]
pub enum Word {
    Main,
    Let,
    Fun,
    Clean,
    Assert,
    Append,
    Rotate,
    Reg,
    True,
    False,
    Bool,
    For,
    In,
    Do,
    Revs,
}

impl Word {
    /// Each word once.
    pub const ALL: [Word; 15] = [
        Word::Main,
        Word::Let,
        Word::Fun,
        Word::Clean,
        Word::Assert,
        Word::Append,
        Word::Rotate,
        Word::Reg,
        Word::True,
        Word::False,
        Word::Bool,
        Word::For,
        Word::In,
        Word::Do,
        Word::Revs,
    ];

    /// How the word is spelled.
    pub fn text(self) -> &'static [u8]
        ensures { result.now ≡ word_text self }
    {
        match self {
            Word::Main => b"main",
            Word::Let => b"let",
            Word::Fun => b"fun",
            Word::Clean => b"clean",
            Word::Assert => b"assert",
            Word::Append => b"append",
            Word::Rotate => b"rotate",
            Word::Reg => b"reg",
            Word::True => b"true",
            Word::False => b"false",
            Word::Bool => b"bool",
            Word::For => b"for",
            Word::In => b"in",
            Word::Do => b"do",
            Word::Revs => b"revs",
        }
    }
}
