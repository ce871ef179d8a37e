// What holds of every text.
ghost use Rattle.revs_parser.specs.WellFormed.{OneProgramOfText};

/// A text is that of one program: its tokens are the sentence of one program, and its names are
/// bound in one way.
pub fn one_program_of_text()
    ensures { OneProgramOfText }
{}
