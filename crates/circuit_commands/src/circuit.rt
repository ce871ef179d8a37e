// From a text to the circuit that it means.
ghost use Rattle.std.specs.Prelude.{◌≡◌, ◌≤◌, length, IfOk, IfErr};
ghost use Rattle.circuit_commands.specs.declared.limits.TheConstants.{MOST_CIRCUIT_BYTES};
ghost use Rattle.circuit_commands.specs.Circuits.{Means, ReadCircuit, line_count, marked};
ghost use Rattle.circuit_commands.specs.Circuits.{of_qasm, of_real};
ghost use Rattle.circuit_commands.specs.inside.Mappings.{qasm_fault, real_fault};
ghost use Rattle.circuit_commands.specs.Outcomes.{IsCircuitFault};
ghost use Rattle.command_answers.specs.declared.fault.Fault.TheVariants.{Memory};
ghost use Rattle.revc_words.specs.declared.order.Format.TheVariants.{Qasm, Real};

use command_answers::{CircuitRefusal, Fault};
use mct_circuit::Circuit;
use qasm_format::{QasmFault, QasmFile};
use real_format::{Mark, RealFault, RealFile};
use revc_base::Memory;
use revc_words::Format;
use std::alloc::Global;
use std::marker::Model;

/// A circuit that was read, with the marks of its lines. Contracts see it as the marks and the
/// gates.
#[derive(Drop)]
pub struct MarkedCircuit {
    constants: Vec<Mark>,
    garbage: Vec<bool>,
    circuit: Circuit,
}

impl Model for MarkedCircuit {
    ghost Value = { ReadCircuit };

    ghost view = { λ c. marked c.constants.items c.garbage.items c.circuit.gates };

    ghost invariant = { λ c. (c.circuit.lines ≡ length c.constants.items)
        × (length c.garbage.items ≡ length c.constants.items) };
}

impl MarkedCircuit {
    // The circuit of a `.real` file.
    fn of_real(file: RealFile) -> MarkedCircuit
        ensures { result ≡ of_real file }
    {
        let (constants, garbage, circuit) = file.into_parts();
        MarkedCircuit {
            constants,
            garbage,
            circuit,
        }
    }

    // The circuit of an OpenQASM file, which has no marks.
    fn of_qasm(alloc: Global, file: QasmFile) -> Result<MarkedCircuit, Memory>
        ensures { IfOk result (λ circuit. circuit ≡ of_qasm file) }
    {
        let circuit = file.into_circuit();
        let lines = circuit.lines() as usize;
        Ok(MarkedCircuit {
            constants: vec![in alloc; Mark::Free; lines]?,
            garbage: vec![in alloc; false; lines]?,
            circuit,
        })
    }

    /// The circuit on the lines. It takes no memory.
    pub fn circuit(&self) -> &Circuit
        ensures lines { result.now.lines ≡ line_count self.now }
        ensures gates { result.now.gates ≡ self.now.gates }
    {
        &self.circuit
    }

    /// With which bit each line starts. It takes no memory.
    pub fn constants(&self) -> &[Mark]
        ensures { result.now ≡ self.now.constants }
    {
        &self.constants
    }

    /// For each line whether its last bit is of no use. It takes no memory.
    pub fn garbage(&self) -> &[bool]
        ensures garbage { result.now ≡ self.now.garbage }
        ensures fit { length self.now.garbage ≡ line_count self.now }
    {
        &self.garbage
    }

    /// The marks of the lines and the circuit on them, given away.
    pub fn into_parts(self) -> (Vec<Mark>, Vec<bool>, Circuit)
        ensures constants { result.0.items ≡ self.constants }
        ensures garbage { result.1.items ≡ self.garbage }
        ensures fit { length self.garbage ≡ line_count self }
        ensures lines { result.2.lines ≡ line_count self }
        ensures gates { result.2.gates ≡ self.gates }
    {
        let MarkedCircuit {
            constants,
            garbage,
            circuit,
        } = self;
        (constants, garbage, circuit)
    }
}

/// The circuit that a text means in a format. A fault is exactly the text's, or want of memory.
pub fn read_circuit(alloc: Global, text: &[u8], from: Format) -> Result<MarkedCircuit, Fault>
    requires { length text.now ≤ MOST_CIRCUIT_BYTES }
    ensures ok { IfOk result (Means from text.now) }
    ensures err { IfErr result (IsCircuitFault from text.now) }
{
    match from {
        Format::Real => read_real(alloc, text),
        Format::Qasm => read_qasm(alloc, text),
    }
}

fn read_real(alloc: Global, text: &[u8]) -> Result<MarkedCircuit, Fault>
    requires { length text.now ≤ MOST_CIRCUIT_BYTES }
    ensures ok { IfOk result (Means Real text.now) }
    ensures err { IfErr result (IsCircuitFault Real text.now) }
{
    match real_format::read(alloc, text) {
        Ok(file) => Ok(MarkedCircuit::of_real(file)),
        Err(fault) => Err(real_fault(fault)),
    }
}

fn read_qasm(alloc: Global, text: &[u8]) -> Result<MarkedCircuit, Fault>
    requires { length text.now ≤ MOST_CIRCUIT_BYTES }
    ensures ok { IfOk result (Means Qasm text.now) }
    ensures err { IfErr result (IsCircuitFault Qasm text.now) }
{
    match qasm_format::read(alloc, text) {
        Ok(file) => Ok(MarkedCircuit::of_qasm(alloc, file)?),
        Err(fault) => Err(qasm_fault(fault)),
    }
}

fn real_fault(fault: RealFault) -> Fault
    ensures { result ≡ real_fault fault }
{
    match fault {
        RealFault::Line { number } => Fault::Circuit(CircuitRefusal::Line { number }),
        RealFault::Limit { number } => Fault::Circuit(CircuitRefusal::LineLimit { number }),
        RealFault::Memory(memory) => Fault::Memory(memory),
    }
}

fn qasm_fault(fault: QasmFault) -> Fault
    ensures { result ≡ qasm_fault fault }
{
    match fault {
        QasmFault::Token { at } => Fault::Circuit(CircuitRefusal::Token { at }),
        QasmFault::Limit { at } => Fault::Circuit(CircuitRefusal::TokenLimit { at }),
        QasmFault::Memory(memory) => Fault::Memory(memory),
    }
}
