// From a text to its program, and to the tape that the program leaves.
ghost use Rattle.std.specs.Prelude.{◌≤◌, length, IfOk, IfErr};
ghost use Rattle.revs_parser.specs.WellFormed.{IsProgramText};
ghost use Rattle.revs_terms.specs.Views.{view_of};
ghost use Rattle.revs_terms.specs.declared.limits.TheConstants.{MOST_RUN_WRITES};
ghost use Rattle.program_texts.specs.inside.Stages.{ForTextsOf, LeavesNoTape};
ghost use Rattle.program_texts.specs.Outcomes.{IsTextFault};
ghost use Rattle.program_texts.specs.Settling.{LeavesTape};

use crate::fault::TextFault;
use command_answers::Fault;
use name_scope::scope;
use revs_lexer::tokens;
use revs_parser::{MOST_BYTES, parse};
use revs_run::run;
use revs_tape::Tape;
use revs_terms::Program;
use std::alloc::Global;

/// The tape that the program of a well-formed text leaves on every input, which has no more writes
/// than a run makes. A fault is the text's
/// refusal, or want of memory.
pub fn tape_of_text(alloc: Global, text: &[u8]) -> Result<Tape, Fault>
    requires { length text.now ≤ MOST_BYTES }
    ensures left { IfOk result (LeavesTape text.now) }
    ensures few { IfOk result (λ tape. length tape.entries ≤ MOST_RUN_WRITES) }
    ensures err { IfErr result (IsTextFault text.now) }
{
    let program = program_of_text(alloc, text)?;
    Ok(tape_of_program(alloc, program)?)
}

// The program of a text, with no name bound. The tokens are let go.
fn program_of_text(alloc: Global, text: &[u8]) -> Result<Program, TextFault>
    requires { length text.now ≤ MOST_BYTES }
    ensures ok { IfOk result (λ program. IsProgramText text.now (view_of program)) }
    ensures err { IfErr result (LeavesNoTape text.now) }
{
    let tokens = tokens(alloc, text)?;
    Ok(parse(alloc, &tokens)?)
}

// The tape that a program leaves. It, or a fault, is that of each text of the program.
fn tape_of_program(alloc: Global, program: Program) -> Result<Tape, TextFault>
    ensures left { IfOk result (λ tape. ForTextsOf (view_of program)
        (λ text. LeavesTape text tape)) }
    ensures few { IfOk result (λ tape. length tape.entries ≤ MOST_RUN_WRITES) }
    ensures err { IfErr result (λ fault. ForTextsOf (view_of program)
        (λ text. LeavesNoTape text fault)) }
{
    let scoped = scope(alloc, program)?;
    Ok(run(alloc, &scoped)?)
}
