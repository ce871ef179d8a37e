// `check`: how many claims a program has, each of which holds on all inputs that meet the first.
ghost use Rattle.std.specs.Prelude.{◌≤◌, length, IfOk, IfErr};
ghost use Rattle.program_texts.specs.Check.{promise, IsChecked, claims_text};
ghost use Rattle.command_answers.specs.Outcomes.{HasOneOutcome};
ghost use Rattle.program_texts.specs.Outcomes.{IsSettlingFault};

use crate::program::tape_of_text;
use crate::settling::settle_tape;
use command_answers::Fault;
use revs_parser::MOST_BYTES;
use std::alloc::Global;

/// What `check` gives, its causes and where it serves exclude one another, and it has one cause at
/// most.
pub fn one_outcome()
    ensures { HasOneOutcome promise }
{}

/// The number of claims of a text's program, all of which hold on the inputs that meet the first
/// so many. A fault is exactly the text's refusal, that no input meets these, or a claim that
/// stops, or want of memory.
pub fn check(alloc: Global, text: &[u8], assumed: u32, nodes: u32) -> Result<u32, Fault>
    requires short { length text.now ≤ MOST_BYTES }
    requires nodes { 1 ≤ nodes }
    ensures ok { IfOk result (λ count. IsChecked text.now assumed nodes (claims_text count)) }
    ensures err { IfErr result (IsSettlingFault text.now assumed nodes) }
{
    let tape = tape_of_text(alloc, text)?;
    settle_tape(&tape, assumed, nodes)?;
    Ok(tape.claims().len() as u32)
}
