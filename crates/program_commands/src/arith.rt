// `arith`: a program that computes with numbers, or its clean circuit.
ghost use Rattle.std.specs.Prelude.{◌≡◌, ◌≤◌, [], length, IfOk, IfErr};
ghost use Rattle.program_commands.specs.Arith.{Gives, compile_order, promise};
ghost use Rattle.program_commands.specs.Outcomes.{CanBeWritten, IsArithFault, made_text};
ghost use Rattle.program_commands.specs.Texts.{IsProgramSize, TextsCompute};
ghost use Rattle.command_answers.specs.Outcomes.{HasOneOutcome};
ghost use Rattle.program_commands.specs.Compile.{IsCompiled};
ghost use Rattle.program_commands.specs.Outcomes.{IsCompileFault};
ghost use Rattle.revc_io.specs.Faults.{HasCause};
ghost use Rattle.revc_io.specs.Passing.{Writes};
ghost use Rattle.revc_words.specs.Words.{order_of};
ghost use Rattle.revs_parser.specs.declared.limits.TheConstants.{MOST_BYTES};

use crate::{compile, generate};
use arith_templates::{Kind, text};
use circuit_plans::Laid;
use command_answers::Fault;
use revc_io::{Failed, Sink};
use revc_words::{Command, Format, Order, Values, Write};
use std::alloc::Global;

/// What waits to be written.
#[derive(Drop)]
pub enum Made {
    /// The text of a program.
    Program(Vec<u8>),
    /// The file of its compiled circuit, in a format.
    File(Format, Laid),
}

/// The law of the texts: each is well formed for a program without claims, which computes what its
/// kind says of numbers. The function does nothing: its contract is the law.
pub fn texts_compute()
    ensures { TextsCompute }
{}

/// What `arith` gives, its exact causes and where it serves exclude one another.
pub fn one_outcome()
    ensures { HasOneOutcome promise }
{}

/// The text of the program of the order's kind, or the plan of its clean circuit, as `compile`
/// makes it of this text where no option is given. A fault is a budget that `compile` passes, or
/// want of memory.
pub fn make(alloc: Global, order: &Order) -> Result<Made, Fault>
    requires size { IsProgramSize order.now.kind order.now.number order.now.values.by }
    ensures ok { IfOk result (λ made. Gives (order_of order.now) [] (made_text made)) }
    ensures writable { IfOk result CanBeWritten }
    ensures err { IfErr result (IsArithFault (order_of order.now)) }
{
    let text = text(alloc, order.kind, order.number, order.values.by)?;
    match order.values.write {
        Write::Program => Ok(Made::Program(text)),
        Write::Real => file(alloc, text.as_slice(), Format::Real),
        Write::Qasm => file(alloc, text.as_slice(), Format::Qasm),
    }
}

// The file that `compile` makes of a text in a format, where no other option is given.
fn file(alloc: Global, text: &[u8], format: Format) -> Result<Made, Fault>
    requires { length text.now ≤ MOST_BYTES }
    ensures ok { IfOk result (λ made. IsCompiled (compile_order format) text.now (made_text made)) }
    ensures writable { IfOk result CanBeWritten }
    ensures err { IfErr result (IsCompileFault (compile_order format) text.now) }
{
    let order = compile_order(alloc, format);
    let laid = compile::compile(alloc, text, &order)?;
    Ok(Made::File(format, laid))
}

// The order of `compile` where no option is given but the format.
fn compile_order(alloc: Global, format: Format) -> Order
    ensures { order_of result ≡ compile_order format }
{
    Order {
        command: Command::Compile,
        values: Values {
            format,
            ..Values::USUAL
        },
        kind: Kind::Add,
        number: 0,
        bits: Vec::new(alloc),
    }
}

/// Writes the text of a program, or the file of its circuit. It takes no memory.
pub fn write<K: Sink>(made: &Made, out: &mut K) -> Result<(), Failed>
    requires { CanBeWritten made.now }
    ensures bytes { Writes result (K.held out.old) (K.held out.new) (made_text made.now) }
    ensures cause { HasCause (K.faults out.old) (K.faults out.new) result }
{
    match made {
        Made::Program(text) => generate::write(text, out),
        Made::File(format, laid) => compile::write(*format, laid, out),
    }
}
