// The commands: the limit of the text of each, and what an order of it makes of a text before
// anything is written: that takes all memory, and meets every fault but that of writing.
ghost use Rattle.std.specs.Prelude.{◌≡◌, ◌<◌, ◌≤◌, length, IfOk, IfErr};
ghost use Rattle.revc_io.specs.Faults.{HasCause};
ghost use Rattle.revc_io.specs.Passing.{Writes};
ghost use Rattle.revc_words.specs.Words.{IsWithinLimits, order_of};
ghost use Rattle.program_texts.specs.Refusals.{program_limit};
ghost use Rattle.circuit_commands.specs.Circuits.{circuit_limit};
ghost use Rattle.revc_driver.specs.Commands.{Gives, most_bytes, promise_of, reads_of};
ghost use Rattle.revc_driver.specs.inside.Ends.{IsCauseOrMemory};
ghost use Rattle.revc_driver.specs.inside.Outcomes.{CanBeWritten, text_of};

use circuit_commands::convert::Converted;
use circuit_commands::stat::Sizes;
use circuit_commands::{MOST_CIRCUIT_BYTES, convert, run, stat, tidy};
use circuit_plans::Laid;
use command_answers::{
    CircuitRefusal, Fault, Refusal, TextLimit, write_digits, write_lines, write_number,
};
use program_commands::ands::AndCounts;
use program_commands::arith::Made;
use program_commands::bench::BenchSizes;
use program_commands::{ands, arith, bench, compile, generate, placed};
use program_texts::{check, eval};
use revc_base::Bits;
use revc_io::{Failed, Sink};
use revc_words::{Command, Format, Order};
use revs_parser::MOST_BYTES;
use std::alloc::Global;
use verify_command::verify;

/// What waits to be written.
#[derive(Drop)]
pub enum Prepared {
    /// The file of a compiled circuit, in a format.
    File(Format, Laid),
    /// The line of a number of claims.
    Claims(u32),
    /// The lines of the counts of a program's ANDs.
    Ands(AndCounts),
    /// Bits as digits, and a line feed.
    Digits(Bits),
    /// Bits as digits, a line for each list.
    Lines(Vec<Bits>),
    /// The lines of a circuit's sizes.
    Stat(Sizes),
    /// The file of a circuit that was converted or tidied, in a format.
    Converted(Format, Converted),
    /// The text of a program.
    Program(Vec<u8>),
    /// The lines of the sizes of a program and its circuit.
    Bench(BenchSizes),
    /// The line that says that a circuit is verified.
    Verified,
    /// The text of a program that computes with numbers, or the file of its circuit.
    Arith(Made),
}

impl Prepared {
    /// Writes the text. It takes no memory.
    pub fn write<K: Sink>(&self, out: &mut K) -> Result<(), Failed>
        requires { CanBeWritten self.now }
        ensures bytes { Writes result (K.held out.old) (K.held out.new) (text_of self.now) }
        ensures cause { HasCause (K.faults out.old) (K.faults out.new) result }
    {
        match self {
            Prepared::File(format, laid) => compile::write(*format, laid, out),
            Prepared::Claims(count) => write_number(out, b"claims ", *count as u64, b"\n"),
            Prepared::Ands(counts) => ands::write(counts, out),
            Prepared::Digits(bits) => write_digits(bits.bits(), out),
            Prepared::Lines(lines) => write_lines(lines, out),
            Prepared::Stat(sizes) => stat::write(sizes, out),
            Prepared::Converted(format, converted) => convert::write(converted, *format, out),
            Prepared::Program(text) => generate::write(text, out),
            Prepared::Bench(sizes) => bench::write(sizes, out),
            Prepared::Verified => verify::write(out),
            Prepared::Arith(made) => arith::write(made, out),
        }
    }
}

/// The limit of the text that a command reads, if it reads one.
pub fn limit_of(command: Command) -> Option<TextLimit>
    ensures limit { result ≡ (promise_of command).reads }
    ensures fits { most_bytes result < usize.MAX }
{
    match command {
        Command::Compile => Some(program_limit()),
        Command::Check => Some(program_limit()),
        Command::Ands => Some(program_limit()),
        Command::Eval => Some(program_limit()),
        Command::Stat => Some(circuit_limit()),
        Command::Run => Some(circuit_limit()),
        Command::Convert => Some(circuit_limit()),
        Command::Tidy => Some(circuit_limit()),
        Command::Gen => None,
        Command::Bench => None,
        Command::Verify => Some(verify::source_limit()),
        Command::Arith => None,
    }
}

fn program_limit() -> TextLimit
    ensures { result ≡ program_limit }
{
    TextLimit {
        bytes: MOST_BYTES,
        fault: Fault::Refused(Refusal::TooLong),
    }
}

fn circuit_limit() -> TextLimit
    ensures { result ≡ circuit_limit }
{
    TextLimit {
        bytes: MOST_CIRCUIT_BYTES,
        fault: Fault::Circuit(CircuitRefusal::TooLong),
    }
}

// What `verify` gives for a source.
fn verified(alloc: Global, order: &Order, source: &[u8]) -> Result<Prepared, Fault>
    requires verifies { order.now.command ≡ Command.Verify }
    requires short { length source.now ≤ most_bytes (reads_of (order_of order.now)) }
    requires limits { IsWithinLimits (order_of order.now) }
    ensures ok { IfOk result (λ prepared. Gives (order_of order.now) source.now
        (text_of prepared)) }
    ensures writable { IfOk result CanBeWritten }
    ensures err { IfErr result (IsCauseOrMemory (order_of order.now) source.now) }
{
    verify::verify(alloc, source, order)?;
    Ok(Prepared::Verified)
}

/// What an order gives for a text. A fault has its cause in the text, or is want of memory.
pub fn prepare(alloc: Global, order: &Order, text: Vec<u8>) -> Result<Prepared, Fault>
    requires short { length text.items ≤ most_bytes (reads_of (order_of order.now)) }
    requires limits { IsWithinLimits (order_of order.now) }
    ensures ok { IfOk result
        (λ prepared. Gives (order_of order.now) text.items (text_of prepared)) }
    ensures writable { IfOk result CanBeWritten }
    ensures err { IfErr result (IsCauseOrMemory (order_of order.now) text.items) }
{
    match order.command {
        Command::Compile => {
            let laid = placed::compile_placed(alloc, &text, order)?;
            Ok(Prepared::File(order.values.format, laid))
        }
        Command::Check => check::check(alloc, &text, order.values.assume, order.values.nodes).map(
            Prepared::Claims,
        ),
        Command::Ands => ands::count(alloc, &text, order.values.assume, order.values.nodes).map(
            Prepared::Ands,
        ),
        Command::Eval => eval::evaluate(alloc, &text, order.word()).map(Prepared::Digits),
        Command::Stat => stat::measure(alloc, &text, order.values.from).map(Prepared::Stat),
        Command::Run => run::run(alloc, &text, order.values.from, &order.bits).map(Prepared::Lines),
        Command::Convert => {
            let converted = convert::convert(alloc, text, order.values.from)?;
            Ok(Prepared::Converted(order.values.to, converted))
        }
        Command::Tidy => {
            let tidied = tidy::tidy(alloc, text, order.values.from, order.values.aim)?;
            Ok(Prepared::Converted(order.values.to, tidied))
        }
        Command::Gen => Ok(Prepared::Program(generate::program(alloc, order.number)?)),
        Command::Bench => bench::measure(alloc, order).map(Prepared::Bench),
        Command::Verify => verified(alloc, order, &text),
        Command::Arith => arith::make(alloc, order).map(Prepared::Arith),
    }
}
