//! Texts that are built of pieces, as by a recursion, and what is said of every such text: its
//! tokens, where they lead in the grammar, what its terms mean, and what its program puts out.
#![tactic(auto)]

ghost use Rattle.built_texts.specs.Forms.{FormsRun};
ghost use Rattle.built_texts.specs.Pieces.{PiecesAreTokens};
ghost use Rattle.built_texts.specs.Programs.{ProgramGives, TextGives};
ghost use Rattle.built_texts.specs.Ways.{WaysTurn, EndsTurn};

/// The tokens of a text that is built of pieces are those that it was built of, each at the place
/// where the pieces put it. The function does nothing: its contract is the law.
pub fn pieces_are_tokens()
    ensures { PiecesAreTokens }
{}

/// Where the table of the grammar says that tokens lead, they lead, and what they stand for is what
/// the table says. The function does nothing: its contract is the law.
pub fn ways_turn()
    ensures tokens { WaysTurn }
    ensures end { EndsTurn }
{}

/// Each form of term means what its parts and its form say, and counts so much work and so many
/// writes. The function does nothing: its contract is the law.
pub fn forms_run()
    ensures { FormsRun }
{}

/// A body that means some bits on every input, within the limits of runs, is that of a program that
/// ends on every input, puts these bits out and makes no claim. The function does nothing: its
/// contract is the law.
pub fn program_gives()
    ensures { ProgramGives }
{}

/// A text that is built of pieces, whose tokens are the sentence of such a body, is well formed,
/// and its program is that one. The function does nothing: its contract is the law.
pub fn text_gives()
    ensures { TextGives }
{}
