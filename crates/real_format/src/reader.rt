// The reader of `.real` texts.
ghost use Rattle.std.specs.Prelude.{◌≡◌, ◌+◌, ◌<◌, ◌^◌, ◌++◌, ◌∷◌, [], length};
ghost use Rattle.std.specs.Prelude.{true, false, Ok, Err, OnOk, IfOk, IfErr, IsErrOf};
ghost use Rattle.std.specs.List.{AllByRecursion};
ghost use Rattle.circuit_plans.specs.declared.plan.TheConstants.{MOST_GATES};
ghost use Rattle.mct_circuit.specs.Gates.{lines_of};
ghost use Rattle.real_format.specs.Header.{nothing_said};
ghost use Rattle.real_format.specs.Real.{MeansFile, in_header, in_gates};
ghost use Rattle.real_format.specs.Faults.{IsRealFault};
ghost use Rattle.real_format.specs.inside.Reading.{Refuses, IsFaultOf, is_nil};
ghost use Rattle.real_format.specs.inside.Reading.{more_gates, gates_line};
ghost use Rattle.real_format.specs.inside.Says.{verdict_on, IsSound, BeginsGates, IsWhole};
ghost use Rattle.real_format.specs.inside.Says.{GatesSay, EndsWell, EndsIn};
ghost use Rattle.real_format.specs.inside.Stamps.{FitsNames};

use crate::file::{RealFault, RealFile};
use crate::gate::{Shape, gate_of};
use crate::header::{Begun, Header};
use crate::refusal::LineRefusal;
use crate::words::{Lines, Words};
use circuit_plans::MOST_GATES;
use format_parts::Names;
use mct_circuit::{Circuit, Gate, GateFault};
use revc_base::Text;
use std::alloc::Global;

/// Reads a `.real` text: the file that it means, or exactly its first bad line and whether that
/// line breaks a rule of form or passes a limit, or want of memory. The format is that of RevLib
/// (Wille, Grosse, Teuber, Dueck, Drechsler: RevLib, an online resource for reversible functions
/// and reversible circuits, ISMVL 2008).
pub fn read(alloc: Global, bytes: &[u8]) -> Result<RealFile, RealFault>
    requires { length bytes.now + 1 < 2 ^ 32 }
    ensures ok { IfOk result (λ file. MeansFile bytes.now file) }
    ensures err { IfErr result (IsRealFault bytes.now) }
{
    let mut lines = Lines::new(bytes);
    let begun = read_header(alloc, &mut lines)?;
    read_file(alloc, begun, &mut lines)
}

// The file of a header and the lines behind it.
fn read_file<'t>(
    alloc: Global,
    begun: Begun<'t>,
    lines: &mut Lines<'t>,
) -> Result<RealFile, RealFault>
    requires { IsWhole begun }
    ensures ok { IfOk result (λ file. verdict_on (in_gates begun.entry) lines.old ≡ Ok file) }
    ensures err { IfErr result (IsFaultOf (verdict_on (in_gates begun.entry) lines.old)) }
{
    let (names, circuit) = read_behind(alloc, &begun, lines)?;
    Ok(RealFile::new(names, begun.constants, begun.garbage, circuit))
}

// A copy of the names, and the circuit of the lines behind the header.
fn read_behind<'t>(
    alloc: Global,
    begun: &Begun<'t>,
    lines: &mut Lines<'t>,
) -> Result<(Vec<Text>, Circuit), RealFault>
    requires { IsWhole begun.now }
    ensures ok { IfOk result (λ read. verdict_on (in_gates begun.now) lines.old
        ≡ Ok (record begun.now { gates = read.1.gates })) }
    ensures names { IfOk result (λ read. read.0.items ≡ begun.now.names) }
    ensures lines { IfOk result (λ read. read.1.lines ≡ length begun.now.names) }
    ensures limit { IfOk result (λ read. read.1.limit ≡ MOST_GATES) }
    ensures err { IfErr result (IsFaultOf (verdict_on (in_gates begun.now) lines.old)) }
{
    let circuit = read_circuit(alloc, begun, lines)?;
    Ok((begun.names.texts(alloc)?, circuit))
}

// ---- the header

// The lines of the header and the one that ends it.
fn read_header<'t>(alloc: Global, lines: &mut Lines<'t>) -> Result<Begun<'t>, RealFault>
    ensures ok { IfOk result (λ begun. verdict_on (in_header nothing_said) lines.old
        ≡ verdict_on (in_gates begun) lines.new) }
    ensures whole { IfOk result IsWhole }
    ensures err { IfErr result (IsFaultOf (verdict_on (in_header nothing_said) lines.old)) }
{
    let mut header = Header::new();
    read_header_lines(alloc, &mut header, lines)?;
    header.begin(alloc)
}

fn read_header_lines<'t>(
    alloc: Global,
    header: &mut Header<'t>,
    lines: &mut Lines<'t>,
) -> Result<(), RealFault>
    requires { IsSound header.old }
    ensures ok { OnOk result
        (BeginsGates (verdict_on (in_header header.old) lines.old) header.new lines.new) }
    ensures err { IfErr result (IsFaultOf (verdict_on (in_header header.old) lines.old)) }
{
    while let Some(mut words) = lines.next() {
        match header.read_line(alloc, &mut words) {
            Ok(false) => {}
            Ok(true) => return Ok(()),
            Err(refusal) => return Err(refusal.at(lines.number())),
        }
    }
    Err(lines.end_fault())
}

// ---- the gates

// The circuit of the lines of gates; those behind them have no word.
fn read_circuit<'t>(
    alloc: Global,
    begun: &Begun<'t>,
    lines: &mut Lines<'t>,
) -> Result<Circuit, RealFault>
    requires { IsWhole begun.now }
    ensures ok { IfOk result (λ circuit. verdict_on (in_gates begun.now) lines.old
        ≡ Ok (record begun.now { gates = circuit.gates })) }
    ensures lines { IfOk result (λ circuit. circuit.lines ≡ length begun.now.names) }
    ensures limit { IfOk result (λ circuit. circuit.limit ≡ MOST_GATES) }
    ensures err { IfErr result (IsFaultOf (verdict_on (in_gates begun.now) lines.old)) }
{
    let count = begun.names.len();
    let mut stamps = vec![in alloc; 0u32; count]?;
    let mut circuit = Circuit::new(alloc, count as u32, MOST_GATES);
    read_gates(alloc, begun, &mut circuit, &mut stamps, lines)?;
    Ok(circuit)
}

// The gates and the line that ends them, behind which no line has a word.
fn read_gates<'t>(
    alloc: Global,
    begun: &Begun<'t>,
    circuit: &mut Circuit,
    stamps: &mut Vec<u32>,
    lines: &mut Lines<'t>,
) -> Result<(), RealFault>
    requires { FitsNames begun.now.names circuit.old stamps.old.items }
    ensures ok { OnOk result (verdict_on
        (in_gates (record begun.now { gates = circuit.old.gates })) lines.old
        ≡ Ok (record begun.now { gates = circuit.new.gates })) }
    ensures lines { OnOk result (circuit.new.lines ≡ length begun.now.names) }
    ensures limit { OnOk result (circuit.new.limit ≡ MOST_GATES) }
    ensures err { IfErr result (IsFaultOf (verdict_on
        (in_gates (record begun.now { gates = circuit.old.gates })) lines.old)) }
{
    while let Some(mut words) = lines.next() {
        match read_gate_line(alloc, begun, circuit, stamps, &mut words) {
            Ok(false) => {}
            Ok(true) => return read_end(lines),
            Err(refusal) => return Err(refusal.at(lines.number())),
        }
    }
    Err(lines.end_fault())
}

// A line of gates, and whether it ends them.
fn read_gate_line<'t>(
    alloc: Global,
    begun: &Begun<'t>,
    circuit: &mut Circuit,
    stamps: &mut Vec<u32>,
    words: &mut Words<'t>,
) -> Result<bool, LineRefusal>
    requires { FitsNames begun.now.names circuit.old stamps.old.items }
    ensures ok { IfOk result (λ ends. GatesSay ends (gates_line
        (record begun.now { gates = circuit.old.gates }) words.old)
        (record begun.now { gates = circuit.new.gates })) }
    ensures fits { OnOk result (FitsNames begun.now.names circuit.new stamps.new.items) }
    ensures err { IfErr result (Refuses (gates_line
        (record begun.now { gates = circuit.old.gates }) words.old)) }
{
    let Some(word) = words.next() else {
        return Ok(false);
    };
    if word == b".end".as_slice() {
        return ends_gates(words);
    }
    let Some(shape) = Shape::of(word) else {
        return Err(LineRefusal::Form);
    };
    add_gate(alloc, &begun.names, circuit, stamps, shape, words)?;
    Ok(false)
}

// Nothing stands behind the word that ends the gates.
fn ends_gates(words: &mut Words) -> Result<bool, LineRefusal>
    ensures ok { IfOk result (λ ends. (ends ≡ true) × (is_nil words.old ≡ true)) }
    ensures err { IfErr result (λ refusal. (refusal ≡ LineRefusal.Form)
        × (is_nil words.old ≡ false)) }
{
    if words.is_done() {
        return Ok(true);
    }
    Err(LineRefusal::Form)
}

// The gate of the words behind the first one, put behind the others.
fn add_gate(
    alloc: Global,
    names: &Names,
    circuit: &mut Circuit,
    stamps: &mut Vec<u32>,
    shape: Shape,
    words: &mut Words,
) -> Result<(), LineRefusal>
    requires { FitsNames names.now circuit.old stamps.old.items }
    ensures ok { OnOk result
        (more_gates names.now circuit.old.gates shape words.old ≡ Ok circuit.new.gates) }
    ensures fits { OnOk result (FitsNames names.now circuit.new stamps.new.items) }
    ensures err { IfErr result (Refuses
        (more_gates names.now circuit.old.gates shape words.old)) }
    ensures full { length circuit.old.gates ≡ MOST_GATES → IsErrOf result LineRefusal.Limit }
{
    if circuit.is_full() {
        return Err(LineRefusal::Limit);
    }
    let stamp = circuit.len() as u32 + 1;
    let gate = gate_of(alloc, names, stamps, stamp, shape, words)?;
    push_gate(circuit, gate)
}

// There is room, so only memory can be wanting.
fn push_gate(circuit: &mut Circuit, gate: Gate) -> Result<(), LineRefusal>
    requires room { length circuit.old.gates < circuit.old.limit }
    requires placed { AllByRecursion (λ line. line < circuit.old.lines) (lines_of gate) }
    ensures ok { OnOk result (circuit.new ≡ record circuit.old
        { gates = circuit.old.gates ++ gate ∷ [] }) }
    ensures err { IfErr result (λ refusal. refusal ≡ LineRefusal.Memory _) }
{
    match circuit.push(gate) {
        Ok(()) => Ok(()),
        Err(GateFault::Memory(memory)) => Err(LineRefusal::Memory(memory)),
        Err(GateFault::Full) => unreachable!(),
    }
}

// The lines behind the gates: none has a word.
fn read_end(lines: &mut Lines) -> Result<(), RealFault>
    ensures ok { OnOk result (EndsWell (lines.old.number + 1) lines.old.left) }
    ensures err { IfErr result (EndsIn (lines.old.number + 1) lines.old.left) }
{
    while let Some(mut words) = lines.next() {
        if !words.is_done() {
            return Err(RealFault::Line {
                number: lines.number(),
            });
        }
    }
    Ok(())
}
