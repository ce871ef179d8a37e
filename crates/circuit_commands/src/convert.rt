// `convert`: the file of the narrow gates in place of a circuit's gates.
ghost use Rattle.std.specs.Prelude.{◌≡◌, ◌+◌, ◌<◌, ◌≤◌, true, false, length, IfOk, IfErr, IsTrue};
ghost use Rattle.mct_circuit.specs.Gates.{AreNarrow};
ghost use Rattle.circuit_plans.specs.declared.plan.TheConstants.{MOST_GATES, MOST_LINES};
ghost use Rattle.revc_io.specs.Faults.{HasCause};
ghost use Rattle.revc_io.specs.Passing.{Writes};
ghost use Rattle.command_answers.specs.Outcomes.{HasOneOutcome};
ghost use Rattle.circuit_commands.specs.declared.limits.TheConstants.{MOST_CIRCUIT_BYTES};
ghost use Rattle.circuit_commands.specs.Circuits.{Means, line_count, marked};
ghost use Rattle.circuit_commands.specs.Convert.{IsSplitInto, WantsLine, converted, promise};
ghost use Rattle.circuit_commands.specs.Convert.{file_text, added_lines};
ghost use Rattle.circuit_commands.specs.Outcomes.{ConvertedView, IsCircuitFault, IsConversion};
ghost use Rattle.circuit_commands.specs.Outcomes.{IsConvertFault};
ghost use Rattle.circuit_commands.specs.inside.Splitting.{HasLines, IsMarked, IsNarrowOf};
ghost use Rattle.circuit_commands.specs.inside.Splitting.{IsOnLinesOf, IsSplitFault, IsSplitOf};
ghost use Rattle.circuit_commands.specs.inside.Splitting.{SplitsText};
ghost use Rattle.circuit_commands.specs.inside.Splitting.{IsRemade, IsWritable};
ghost use Rattle.flip_orders.specs.Orders.{AreReordered};

use crate::circuit::{MarkedCircuit, read_circuit};
use circuit_plans::{MOST_GATES, MOST_LINES, Narrow};
use command_answers::Fault;
use flip_orders::{Goal, best_order};
use gate_split::{SplitFault, are_narrow, split};
use mct_circuit::Circuit;
use real_format::Mark;
use revc_base::Memory;
use revc_io::{Failed, Sink};
use revc_words::Format;
use std::alloc::Global;
use std::marker::Model;

/// A circuit of narrow gates that waits to be written, with the marks of its lines and whether the
/// last one was added. Contracts see it as the marks and the gates, and whether a line was added.
#[derive(Drop)]
pub struct Converted {
    circuit: Narrow,
    constants: Vec<Mark>,
    garbage: Vec<bool>,
    added: bool,
}

impl Model for Converted {
    ghost Value = { ConvertedView };

    ghost view = { λ c. record {
      circuit = marked c.constants.items c.garbage.items c.circuit.gates;
      added = c.added;
    } };

    ghost invariant = { λ c. (length c.constants.items ≡ c.circuit.lines)
        × (length c.garbage.items ≡ c.circuit.lines)
        × (added_lines c.added < c.circuit.lines)
        × (c.circuit.lines ≤ MOST_LINES)
        × (length c.circuit.gates ≤ MOST_GATES) };
}

impl Converted {
    // The circuit of narrow gates, lent. It takes no memory.
    pub(crate) fn narrow(&self) -> &Narrow
        ensures lines { result.now.lines ≡ line_count self.now.circuit }
        ensures gates { result.now.gates ≡ self.now.circuit.gates }
        ensures few_gates { length self.now.circuit.gates ≤ MOST_GATES }
    {
        &self.circuit
    }

    // The gates in the best order that was found, first by the Toffoli depth.
    pub(crate) fn in_best_order(self, alloc: Global) -> Result<Converted, Memory>
        ensures { IfOk result (IsRemade AreReordered self) }
    {
        let Converted {
            circuit,
            constants,
            garbage,
            added,
        } = self;
        let circuit = best_order(alloc, circuit, Goal::Toffoli)?;
        // This call says that the gates are on the lines.
        let _ = circuit.circuit().lines();
        Ok(Converted {
            circuit,
            constants,
            garbage,
            added,
        })
    }

    // Other gates on the same lines.
    pub(crate) fn with_gates(mut self, circuit: Narrow) -> Converted
        requires lines { circuit.lines ≡ line_count self.circuit }
        requires few_gates { length circuit.gates ≤ MOST_GATES }
        ensures made { result ≡ record self {
          circuit = record self.circuit { gates = circuit.gates };
        } }
        ensures writable { IsWritable result }
    {
        // This call says that the gates are on the lines.
        let _ = circuit.circuit().lines();
        self.circuit = circuit;
        self
    }
}

/// What `convert` gives, its causes and where it serves exclude one another, and it has one cause
/// at most.
pub fn one_outcome()
    ensures { HasOneOutcome promise }
{}

/// The circuit of narrow gates in place of those of a text's circuit, on its lines, or exactly
/// where a gate wants an idle line there, on one more. A fault is exactly that of the text or of
/// the split, or want of memory. The text is let go once it is read.
pub fn convert(alloc: Global, text: Vec<u8>, from: Format) -> Result<Converted, Fault>
    requires { length text.items ≤ MOST_CIRCUIT_BYTES }
    ensures ok { IfOk result (IsConversion IsSplitInto from text.items) }
    ensures err { IfErr result (IsConvertFault MOST_GATES from text.items) }
{
    split_text(alloc, text, from, MOST_GATES)
}

// The split list of at most so many gates of a text's circuit, with its marks.
pub(crate) fn split_text(
    alloc: Global,
    text: Vec<u8>,
    from: Format,
    most: u64,
) -> Result<Converted, Fault>
    requires short { length text.items ≤ MOST_CIRCUIT_BYTES }
    requires few { most ≤ MOST_GATES }
    ensures ok { IfOk result (SplitsText most from text.items) }
    ensures err { IfErr result (IsConvertFault most from text.items) }
{
    let source = read_and_drop(alloc, text, from)?;
    split_gates(alloc, source, most)
}

// The circuit of a text, which is let go, so that it does not stand beside the narrow gates.
fn read_and_drop(alloc: Global, text: Vec<u8>, from: Format) -> Result<MarkedCircuit, Fault>
    requires { length text.items ≤ MOST_CIRCUIT_BYTES }
    ensures ok { IfOk result (Means from text.items) }
    ensures err { IfErr result (IsCircuitFault from text.items) }
{
    read_circuit(alloc, &text, from)
}

// At most so many narrow gates on the lines of a circuit, or on one more. Gates that are narrow
// already are not copied.
fn split_gates(alloc: Global, source: MarkedCircuit, most: u64) -> Result<Converted, Fault>
    requires lines { HasLines source }
    requires few { most ≤ MOST_GATES }
    ensures ok { IfOk result (IsSplitOf most source) }
    ensures err { IfErr result (IsSplitFault most source) }
{
    if are_few_and_narrow(source.circuit(), most) {
        return Ok(as_it_is(source));
    }
    let narrow = split_on_lines(alloc, &source, most)?;
    marked(source, narrow)
}

// Whether the gates are narrow, and at most so many.
fn are_few_and_narrow(circuit: &Circuit, most: u64) -> bool
    ensures few { IsTrue result → length circuit.now.gates ≤ most }
    ensures narrow { IsTrue result → AreNarrow circuit.now.gates }
{
    circuit.len() <= most && are_narrow(circuit.gates())
}

// A circuit of narrow gates with its own gates.
fn as_it_is(source: MarkedCircuit) -> Converted
    requires lines { HasLines source }
    requires few_gates { length source.gates ≤ MOST_GATES }
    requires narrow { AreNarrow source.gates }
    ensures made { result ≡ record {
      circuit = converted source false source.gates;
      added = false;
    } }
    ensures writable { IsWritable result }
{
    let (constants, garbage, circuit) = source.into_parts();
    // This call says that the gates are on the lines.
    let _ = circuit.lines();
    Converted {
        circuit: Narrow::new(circuit),
        constants,
        garbage,
        added: false,
    }
}

// At most so many narrow gates on the lines of a circuit, or on one more.
fn split_on_lines(alloc: Global, source: &MarkedCircuit, most: u64) -> Result<Narrow, Fault>
    requires { HasLines source.now }
    ensures ok { IfOk result (IsNarrowOf most source.now) }
    ensures err { IfErr result (IsSplitFault most source.now) }
{
    let circuit = source.circuit();
    match split(alloc, circuit, circuit.lines(), most) {
        Ok(narrow) => Ok(narrow),
        Err(SplitFault::NoIdle { .. }) => split_wider(alloc, source, most),
        Err(SplitFault::Gates) => Err(Fault::Gates { limit: most }),
        Err(SplitFault::Memory(memory)) => Err(Fault::Memory(memory)),
    }
}

// The narrow gates on one line more.
fn split_wider(alloc: Global, source: &MarkedCircuit, most: u64) -> Result<Narrow, Fault>
    requires lines { HasLines source.now }
    requires wants { WantsLine most source.now }
    ensures ok { IfOk result (IsNarrowOf most source.now) }
    ensures err { IfErr result (IsSplitFault most source.now) }
{
    let circuit = source.circuit();
    let lines = circuit.lines();
    if lines == MOST_LINES {
        return Err(Fault::Lines {
            need: MOST_LINES + 1,
            limit: MOST_LINES,
        });
    }
    match split(alloc, circuit, lines + 1, most) {
        Ok(narrow) => Ok(narrow),
        Err(SplitFault::NoIdle { .. }) => unreachable!(),
        Err(SplitFault::Gates) => Err(Fault::Gates { limit: most }),
        Err(SplitFault::Memory(memory)) => Err(Fault::Memory(memory)),
    }
}

// The narrow gates of a circuit with its marks, and none on a line that was added.
fn marked(source: MarkedCircuit, narrow: Narrow) -> Result<Converted, Fault>
    requires lines { HasLines source }
    requires on_lines { IsOnLinesOf source narrow }
    ensures ok { IfOk result (IsMarked source narrow) }
    ensures err { IfErr result (λ fault. fault ≡ Fault.Memory _) }
{
    let own_lines = source.circuit().lines();
    let lines = narrow.circuit().lines();
    if lines == own_lines {
        return Ok(on_own_lines(source, narrow));
    }
    Ok(with_line(source, narrow)?)
}

// The narrow gates on the lines of the circuit.
fn on_own_lines(source: MarkedCircuit, circuit: Narrow) -> Converted
    requires own { circuit.lines ≡ line_count source }
    requires lines { HasLines source }
    requires few_gates { length circuit.gates ≤ MOST_GATES }
    ensures made { result ≡ record {
      circuit = converted source false circuit.gates;
      added = false;
    } }
    ensures writable { IsWritable result }
{
    // This call says that the gates are on the lines.
    let _ = circuit.circuit().lines();
    let (constants, garbage, _) = source.into_parts();
    Converted {
        circuit,
        constants,
        garbage,
        added: false,
    }
}

// The narrow gates on the lines of the circuit and one more, which has no mark.
fn with_line(source: MarkedCircuit, circuit: Narrow) -> Result<Converted, Memory>
    requires wider { circuit.lines ≡ line_count source + 1 }
    requires some { 1 ≤ line_count source }
    requires room { line_count source < MOST_LINES }
    requires few_gates { length circuit.gates ≤ MOST_GATES }
    ensures made { IfOk result (λ made. made ≡ record {
      circuit = converted source true circuit.gates;
      added = true;
    }) }
    ensures writable { IfOk result IsWritable }
{
    // This call says that the gates are on the lines.
    let _ = circuit.circuit().lines();
    let (mut constants, mut garbage, _) = source.into_parts();
    constants.push(Mark::Free)?;
    garbage.push(false)?;
    Ok(Converted {
        circuit,
        constants,
        garbage,
        added: true,
    })
}

/// Writes the file of a circuit in a format. It takes no memory.
pub fn write<K: Sink>(converted: &Converted, to: Format, out: &mut K) -> Result<(), Failed>
    ensures bytes { Writes result (K.held out.old) (K.held out.new)
        (file_text to converted.now.circuit converted.now.added) }
    ensures cause { HasCause (K.faults out.old) (K.faults out.new) result }
{
    match to {
        Format::Real => real_format::write_lines(
            &converted.circuit,
            &converted.constants,
            &converted.garbage,
            out,
        ),
        Format::Qasm => qasm_format::write_lines(&converted.circuit, converted.added, out),
    }
}
