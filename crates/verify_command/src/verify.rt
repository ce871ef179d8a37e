// `verify`: that a circuit computes a program.
ghost use Rattle.std.specs.Prelude.{◌≡◌, ◌≤◌, length, IfErr, OnOk};
ghost use Rattle.command_answers.specs.Outcomes.{HasOneOutcome};
ghost use Rattle.revc_io.specs.Faults.{HasCause};
ghost use Rattle.revc_io.specs.Passing.{Writes};
ghost use Rattle.revc_words.specs.Words.{IsWithinLimits, order_of};
ghost use Rattle.revs_parser.specs.declared.limits.TheConstants.{MOST_BYTES};
ghost use Rattle.circuit_commands.specs.declared.limits.TheConstants.{MOST_CIRCUIT_BYTES};
ghost use Rattle.verify_command.specs.Outcomes.{IsVerifyingFault};
ghost use Rattle.verify_command.specs.Verify.{AreVerified, Gives, promise, source_limit};
ghost use Rattle.verify_command.specs.Verify.{verified_text};
ghost use Rattle.verify_command.specs.inside.Stages.{IsPartsFault};

use crate::comparing::compare;
use crate::limits::MOST_SOURCE_BYTES;
use crate::parting::part;
use circuit_commands::{MOST_CIRCUIT_BYTES, read_circuit};
use claim_assumptions::premise;
use command_answers::{CircuitRefusal, Fault, Refusal, TextLimit};
use program_texts::{settle_tape, tape_of_text};
use revc_io::{Failed, Sink, write_whole};
use revc_words::Order;
use revs_parser::MOST_BYTES;
use std::alloc::Global;

/// What `verify` gives, its exact causes and where it serves exclude one another. Only the limit of
/// nodes, and that sums leave a circuit unsettled, may come in the place of another cause.
pub fn one_outcome()
    ensures { HasOneOutcome promise }
{}

/// The limit of a source with a program and a circuit.
pub fn source_limit() -> TextLimit
    ensures { result ≡ source_limit }
{
    TextLimit {
        bytes: MOST_SOURCE_BYTES,
        fault: Fault::Circuit(CircuitRefusal::TooLong),
    }
}

/// Verifies that the circuit of a source computes its program: on every input that meets the claims
/// that the order assumes, whatever the output lines hold that the order lets them hold, with 0 on
/// the work lines and whatever the borrowed lines hold, the outputs are added to the output lines,
/// or take the place of the inputs, and every other line is left as it was. The lines are those of
/// the inputs, then those of the outputs, then the work lines, then the borrowed ones. The way of
/// the order says how the two are compared: it serves where that is not by sums alone. A fault is
/// exactly that of the source, of a part or of the two, or want of memory, or that sums alone leave
/// the circuit unsettled.
pub fn verify(alloc: Global, source: &[u8], order: &Order) -> Result<(), Fault>
    requires short { length source.now ≤ MOST_SOURCE_BYTES }
    requires limits { IsWithinLimits (order_of order.now) }
    ensures ok { OnOk result (Gives (order_of order.now) source.now verified_text) }
    ensures err { IfErr result (IsVerifyingFault (order_of order.now) source.now) }
{
    match part(source) {
        Some((program, circuit)) => verify_parts(alloc, program, circuit, order),
        None => Err(Fault::NoPart),
    }
}

// Verifies a circuit against a program, where neither text is too long.
fn verify_parts(alloc: Global, program: &[u8], circuit: &[u8], order: &Order) -> Result<(), Fault>
    requires { IsWithinLimits (order_of order.now) }
    ensures ok { OnOk result (AreVerified (order_of order.now) program.now circuit.now) }
    ensures err { IfErr result (IsPartsFault (order_of order.now) program.now circuit.now) }
{
    if MOST_BYTES < program.len() {
        return Err(Fault::Refused(Refusal::TooLong));
    }
    if MOST_CIRCUIT_BYTES < circuit.len() {
        return Err(Fault::Circuit(CircuitRefusal::TooLong));
    }
    verify_texts(alloc, program, circuit, order)
}

// Verifies a circuit against a program.
fn verify_texts(alloc: Global, program: &[u8], circuit: &[u8], order: &Order) -> Result<(), Fault>
    requires program { length program.now ≤ MOST_BYTES }
    requires circuit { length circuit.now ≤ MOST_CIRCUIT_BYTES }
    requires limits { IsWithinLimits (order_of order.now) }
    ensures ok { OnOk result (AreVerified (order_of order.now) program.now circuit.now) }
    ensures err { IfErr result (IsPartsFault (order_of order.now) program.now circuit.now) }
{
    let values = order.values;
    let tape = tape_of_text(alloc, program)?;
    let read = read_circuit(alloc, circuit, values.from)?;
    let graph = settle_tape(&tape, values.assume, values.nodes)?;
    let assumed = premise(&tape, values.assume)?;
    let circuit = read.circuit();
    // This call says that the gates stand on the lines.
    let _ = circuit.lines();
    compare(alloc, &tape, &graph, &assumed, circuit, order)
}

/// Writes that a circuit is verified. It takes no memory.
pub fn write<K: Sink>(out: &mut K) -> Result<(), Failed>
    ensures bytes { Writes result (K.held out.old) (K.held out.new) verified_text }
    ensures cause { HasCause (K.faults out.old) (K.faults out.new) result }
{
    write_whole(b"verified\n", out)
}
