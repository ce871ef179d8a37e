// `gen`: the program of an adder.
ghost use Rattle.std.specs.Prelude.{◌≡◌, IfOk};
ghost use Rattle.command_answers.specs.Outcomes.{HasOneOutcome};
ghost use Rattle.program_commands.specs.Gen.{promise};
ghost use Rattle.program_commands.specs.Outcomes.{IsAdderSize};
ghost use Rattle.arith_templates.specs.Adder.{adder_text};
ghost use Rattle.revc_io.specs.Faults.{HasCause};
ghost use Rattle.revc_io.specs.Passing.{Writes};

use arith_templates::{Kind, text};
use revc_base::Memory;
use revc_io::{Failed, Sink, write_whole};
use std::alloc::Global;

/// What `gen` gives, its causes and where it serves exclude one another: it has no cause.
pub fn one_outcome()
    ensures { HasOneOutcome promise }
{}

/// The text of the program of an adder of so many bits.
pub fn program(alloc: Global, number: u32) -> Result<Vec<u8>, Memory>
    requires { IsAdderSize number }
    ensures { IfOk result (λ text. text.items ≡ adder_text number) }
{
    text(alloc, Kind::Add, number, 0)
}

/// Writes the text of a program. It takes no memory.
pub fn write<K: Sink>(text: &[u8], out: &mut K) -> Result<(), Failed>
    ensures bytes { Writes result (K.held out.old) (K.held out.new) text.now }
    ensures cause { HasCause (K.faults out.old) (K.faults out.new) result }
{
    write_whole(text, out)
}
