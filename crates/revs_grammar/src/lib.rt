//! The sentences of the language.
//!
//! The grammar is a table: for each form its lines, each a list of tokens and forms and what it
//! builds of them. A form is of a kind, in one of two profiles of the language, which differ in few
//! lines. Tokens are read by the lines, and what they stand for follows from how they are read. A
//! list of tokens is the sentence of a program within limits, or it is refused for one cause at one
//! place: at the first token that cannot stand where it stands, at the first that opens level 101,
//! or at the first parameter at which the inputs are too many.
//!
//! What makes this work is checked of the table by computing: the lines of a form part at their
//! first tokens, what may be left out does not also stand behind, and each form can be completed.
#![tactic(auto)]

mod profile;

ghost use Rattle.revs_grammar.specs.Faults.{SomeVerdict, OneVerdict};
ghost use Rattle.revs_grammar.specs.Sentences.{OneProgram};

pub use profile::Profile;

/// Each list of tokens that ends with `End`, and holds no other, has one verdict: it is the
/// sentence of a program within limits; or there is one token that no sentence can hold there; or
/// one that is the first to open level 101; or it is a sentence of few levels and there is one
/// parameter at which the limits of the inputs are passed.
///
/// The second of these is known once the token was read: some sentence begins with the tokens
/// before it, and none with the tokens through it. The third too: the levels are those that the
/// tokens read so far open.
pub fn one_verdict()
    ensures some { SomeVerdict }
    ensures one { OneVerdict }
{}

/// A list of tokens is the sentence of one program: with the same tokens come the same parameters
/// and the same body.
pub fn one_program()
    ensures { OneProgram }
{}
