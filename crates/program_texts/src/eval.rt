// `eval`: the bits that a program gives on the bits of a word.
ghost use Rattle.std.specs.Prelude.{◌≡◌, ◌≤◌, length, sum, IfOk, IfErr};
ghost use Rattle.command_answers.specs.Outcomes.{HasOneOutcome};
ghost use Rattle.command_answers.specs.BitWords.{IsInputWord, bits_of};
ghost use Rattle.program_texts.specs.Eval.{promise, IsValueOf};
ghost use Rattle.program_texts.specs.inside.Mappings.{bits_fault};
ghost use Rattle.program_texts.specs.Outcomes.{IsEvalFault};
ghost use Rattle.program_texts.specs.inside.Stages.{IsBitsFault};
ghost use Rattle.program_texts.specs.Settling.{ForTexts};

use crate::program::tape_of_text;
use crate::settling::broken_claim;
use command_answers::Fault;
use revc_base::{Bits, BitsFault};
use revs_parser::MOST_BYTES;
use revs_tape::{Tape, TapeEnd};
use std::alloc::Global;

/// What `eval` gives, its causes and where it serves exclude one another, and it has one cause at
/// most.
pub fn one_outcome()
    ensures { HasOneOutcome promise }
{}

/// The bits that a text's program gives on the bits of a word. A fault is exactly the text's, the
/// word's or the claim's, or want of memory.
pub fn evaluate(alloc: Global, text: &[u8], word: &str) -> Result<Bits, Fault>
    requires { length text.now ≤ MOST_BYTES }
    ensures ok { IfOk result (IsValueOf text.now word.now) }
    ensures err { IfErr result (IsEvalFault text.now word.now) }
{
    let tape = tape_of_text(alloc, text)?;
    run_on(alloc, &tape, word)
}

// The bits that a tape gives on the bits of a word.
fn run_on(alloc: Global, tape: &Tape, word: &str) -> Result<Bits, Fault>
    ensures ok { IfOk result
        (λ bits. ForTexts tape.now (λ text. IsValueOf text word.now bits)) }
    ensures err { IfErr result
        (λ fault. ForTexts tape.now (λ text. IsEvalFault text word.now fault)) }
{
    let input = input_of(alloc, tape, word)?;
    match tape.run(input.bits())? {
        TapeEnd::Out(bits) => Ok(bits),
        TapeEnd::Broken { claim } => Err(broken_claim(tape, claim, input)),
    }
}

// The input of a tape that a word gives.
fn input_of(alloc: Global, tape: &Tape, word: &str) -> Result<Bits, Fault>
    ensures fits { IfOk result (λ bits. IsInputWord (sum tape.now.params) word.now) }
    ensures bits { IfOk result (λ bits. bits ≡ bits_of word.now) }
    ensures err { IfErr result (IsBitsFault (sum tape.now.params) word.now) }
{
    if word.len() != tape.inputs() as usize {
        return Err(Fault::BadBits { word: 1 });
    }
    match Bits::from_word(alloc, word) {
        Ok(bits) => Ok(bits),
        Err(fault) => Err(bits_fault(fault)),
    }
}

fn bits_fault(fault: BitsFault) -> Fault
    ensures { result ≡ bits_fault fault }
{
    match fault {
        BitsFault::BadDigit { .. } => Fault::BadBits { word: 1 },
        BitsFault::Memory(memory) => Fault::Memory(memory),
    }
}
