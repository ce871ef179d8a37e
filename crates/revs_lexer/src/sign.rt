// The signs of the language.
ghost use Rattle.std.specs.Prelude.{◌≡◌};
ghost use Rattle.revs_lexer.specs.Spelling.{sign_text};

/// A sign of the language. Only programs of profile 2 hold `Plus` and `Minus`.
#[derive(Clone, Copy, Debug, PartialEq, Eq)]
pub enum Sign {
    OpenRound,
    CloseRound,
    OpenSquare,
    CloseSquare,
    OpenCurly,
    CloseCurly,
    Colon,
    Semi,
    Equal,
    Xor,
    And,
    Assign,
    Arrow,
    Dot,
    DotDot,
    Plus,
    Minus,
}

impl Sign {
    /// Each sign once, no sign before a longer one.
    pub const ALL: [Sign; 17] = [
        Sign::Xor,
        Sign::And,
        Sign::Assign,
        Sign::Arrow,
        Sign::DotDot,
        Sign::OpenRound,
        Sign::CloseRound,
        Sign::OpenSquare,
        Sign::CloseSquare,
        Sign::OpenCurly,
        Sign::CloseCurly,
        Sign::Colon,
        Sign::Semi,
        Sign::Equal,
        Sign::Dot,
        Sign::Plus,
        Sign::Minus,
    ];

    /// How the sign is spelled.
    pub fn text(self) -> &'static [u8]
        ensures { result.now ≡ sign_text self }
    {
        match self {
            Sign::OpenRound => b"(",
            Sign::CloseRound => b")",
            Sign::OpenSquare => b"[",
            Sign::CloseSquare => b"]",
            Sign::OpenCurly => b"{",
            Sign::CloseCurly => b"}",
            Sign::Colon => b":",
            Sign::Semi => b";",
            Sign::Equal => b"=",
            Sign::Xor => b"<>",
            Sign::And => b"&&",
            Sign::Assign => b"<-",
            Sign::Arrow => b"->",
            Sign::Dot => b".",
            Sign::DotDot => b"..",
            Sign::Plus => b"+",
            Sign::Minus => b"-",
        }
    }
}
