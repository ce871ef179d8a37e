// The lines for standard error. They take no memory.
ghost use Rattle.revc_io.specs.Faults.{HasCause};
ghost use Rattle.revc_io.specs.Passing.{Writes};
ghost use Rattle.std.specs.Prelude.{◌≡◌, ⊤};
ghost use Rattle.command_answers.specs.Faults.{Receives, line_of, two_numbers_line, refusal_line};
ghost use Rattle.command_answers.specs.Faults.{circuit_line, place_text};

use crate::digits::BitLine;
use crate::fault::{CircuitRefusal, Fault, Refusal};
use revc_base::Place;
use revc_io::{Buffer, Decimal, Failed, Literal, Piece, Sink, write_whole};

/// Writes the line of a fault. A fault of the sink changes nothing.
pub fn report<E: Sink>(err: &mut E, fault: &Fault)
    ensures { Receives (E.held err.old) (E.held err.new) (E.faults err.old) (E.faults err.new)
        (line_of fault.now) }
{
    let _ = write_line(err, fault);
}

fn write_line<E: Sink>(err: &mut E, fault: &Fault) -> Result<(), Failed>
    ensures bytes { Writes result (E.held err.old) (E.held err.new) (line_of fault.now) }
    ensures cause { HasCause (E.faults err.old) (E.faults err.new) result }
{
    write_whole(Line(fault), err)
}

// The line of a fault.
#[derive(Clone, Copy)]
struct Line<'a>(&'a Fault);

impl Piece for Line<'_> {
    ghost can_put = { λ _. ⊤ };

    ghost bytes = { λ line. line_of line.0.now };

    fn put<K: Sink>(self, buffer: &mut Buffer, out: &mut K) -> Result<(), Failed> {
        match self.0 {
            Fault::Usage => b"revc: bad command line\n".put(buffer, out),
            Fault::Refused(refusal) => refusal.put(buffer, out),
            Fault::Claim { number, at, bits } => {
                let bits = (b" fails on ", BitLine(bits.bits()));
                let number = Decimal(*number as u64);
                (b"revc: claim ", number, (b" at ", At(*at), bits)).put(buffer, out)
            }
            Fault::Diagram { number, at, limit } => {
                let passes = (b" passes ", Decimal(*limit as u64), b" nodes\n");
                let number = Decimal(*number as u64);
                (b"revc: claim ", number, (b" at ", At(*at), passes)).put(buffer, out)
            }
            Fault::CircuitDiagram { limit } => {
                let limit = Decimal(*limit as u64);
                (b"revc: circuit passes ", limit, b" nodes\n").put(buffer, out)
            }
            Fault::Lines { need, limit } => {
                two_numbers(b"revc: lines ", *need, b" over ", *limit).put(buffer, out)
            }
            Fault::Gates { limit } => {
                (b"revc: more than ", Decimal(*limit), b" gates\n").put(buffer, out)
            }
            Fault::Circuit(refusal) => refusal.put(buffer, out),
            Fault::BadBits { word } => {
                (b"revc: bad bits in word ", Decimal(*word as u64), b"\n").put(buffer, out)
            }
            Fault::FewOutputs { inputs, outputs } => {
                let inputs = Decimal(*inputs as u64);
                let outputs = (
                    b" inputs have only ",
                    Decimal(*outputs as u64),
                    b" outputs\n",
                );
                (b"revc: ", inputs, outputs).put(buffer, out)
            }
            Fault::FewLines { lines, need } => {
                two_numbers(b"revc: circuit has ", *lines, b" lines, needs ", *need).put(
                    buffer, out,
                )
            }
            Fault::WideGate { number } => {
                (b"revc: gate ", Decimal(*number), b" is not X, CX or CCX\n").put(buffer, out)
            }
            Fault::Differs { line, bits } => {
                let bits = (b" on ", BitLine(bits.bits()));
                let line = Decimal(*line as u64);
                (b"revc: circuit differs at line ", line, bits).put(buffer, out)
            }
            Fault::Unsettled => b"revc: circuit is not settled by sums\n".put(buffer, out),
            Fault::NoPart => b"revc: no parting line\n".put(buffer, out),
            Fault::NoCircuit => b"revc: no circuit in place was found\n".put(buffer, out),
            Fault::NoInput => b"revc: no input meets the assumptions\n".put(buffer, out),
            Fault::Read => b"revc: read fault\n".put(buffer, out),
            Fault::Write => b"revc: write fault\n".put(buffer, out),
            Fault::Memory(_) => b"revc: out of memory\n".put(buffer, out),
        }
    }
}

// The line of a source that is refused.
impl Piece for Refusal {
    ghost can_put = { λ _. ⊤ };

    ghost bytes = { refusal_line };

    fn put<K: Sink>(self, buffer: &mut Buffer, out: &mut K) -> Result<(), Failed> {
        match self {
            Refusal::TooLong => b"revc: source over 1048576 bytes\n".put(buffer, out),
            Refusal::At(kind, at) => {
                let kind = (b" ", Literal(kind.text()), b"\n");
                (b"revc: ", At(at), kind).put(buffer, out)
            }
        }
    }
}

// The line of a circuit text that is refused.
impl Piece for CircuitRefusal {
    ghost can_put = { λ _. ⊤ };

    ghost bytes = { circuit_line };

    fn put<K: Sink>(self, buffer: &mut Buffer, out: &mut K) -> Result<(), Failed> {
        match self {
            CircuitRefusal::TooLong => b"revc: circuit over 134217728 bytes\n".put(buffer, out),
            CircuitRefusal::Line { number } => {
                (b"revc: circuit line ", Decimal(number as u64), b"\n").put(buffer, out)
            }
            CircuitRefusal::LineLimit { number } => {
                let number = Decimal(number as u64);
                (b"revc: circuit line ", number, b" over a limit\n").put(buffer, out)
            }
            CircuitRefusal::Token { at } => {
                (b"revc: circuit at ", At(at), b"\n").put(buffer, out)
            }
            CircuitRefusal::TokenLimit { at } => {
                (b"revc: circuit at ", At(at), b" over a limit\n").put(buffer, out)
            }
        }
    }
}

// A place, as a line shows it.
#[derive(Clone, Copy)]
struct At(Place);

impl Piece for At {
    ghost can_put = { λ _. ⊤ };

    ghost bytes = { λ at. place_text at.0 };

    fn put<K: Sink>(self, buffer: &mut Buffer, out: &mut K) -> Result<(), Failed> {
        let line = Decimal(self.0.line as u64);
        (line, b":", Decimal(self.0.column as u64)).put(buffer, out)
    }
}

// Two numbers, each behind a text, and a line feed.
type TwoNumbers = (Literal, Decimal, (Literal, Decimal, Literal));

fn two_numbers(head: &'static [u8], one: u32, between: &'static [u8], other: u32) -> TwoNumbers
    ensures { ⟦<TwoNumbers as Piece>⟧.bytes result
        ≡ two_numbers_line head.now one between.now other }
{
    let other = (Literal(between), Decimal(other as u64), Literal(b"\n"));
    (Literal(head), Decimal(one as u64), other)
}
