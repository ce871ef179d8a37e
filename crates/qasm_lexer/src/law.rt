// What holds of the tokens of every text.
ghost use Rattle.qasm_lexer.specs.Limits.{LimitsAre};
ghost use Rattle.qasm_lexer.specs.Tokens.{TokensAreDetermined, EachTextHasTokens};

/// A text is cut in one way only: it has at most one list of tokens.
pub fn one_way_to_cut()
    ensures { TokensAreDetermined }
{}

/// Each text has a list of tokens.
pub fn each_text_has_tokens()
    ensures { EachTextHasTokens }
{}

/// The law of limits: what number each is. The function does nothing: its contract is the law.
pub fn limits_are()
    ensures { LimitsAre }
{}
