// A file as it was read, and why a text means none.
ghost use Rattle.std.specs.Prelude.{◌≡◌};
ghost use Rattle.qasm_format.specs.declared.file.QasmFault.TheVariants as faults;
ghost use Rattle.circuit_plans.specs.declared.plan.TheConstants.{MOST_GATES};
ghost use Rattle.qasm_format.specs.Registers.{lines_of_all};
ghost use Rattle.qasm_format.specs.Qasm.{QasmView};

use mct_circuit::Circuit;
use revc_base::{Memory, Place, Text, WantOfMemory};
use std::marker::Model;

/// A register: its name and its number of lines.
#[derive(Drop)]
pub struct Register {
    pub name: Text,
    pub size: u32,
}

/// A file: its registers in the order of their declaration, and the circuit on their lines, laid
/// one after another. Contracts see it as the registers and the gates.
#[derive(Drop)]
pub struct QasmFile {
    registers: Vec<Register>,
    circuit: Circuit,
}

impl Model for QasmFile {
    ghost Value = { QasmView };

    ghost view = { λ f. record { registers = f.registers.items; gates = f.circuit.gates } };

    ghost invariant = { λ f. (f.circuit.lines ≡ lines_of_all f.registers.items)
        × (f.circuit.limit ≡ MOST_GATES) };
}

impl QasmFile {
    pub(crate) fn new(registers: Vec<Register>, circuit: Circuit) -> QasmFile
        requires lines { circuit.lines ≡ lines_of_all registers.items }
        requires limit { circuit.limit ≡ MOST_GATES }
        ensures { result ≡ record { registers = registers.items; gates = circuit.gates } }
    {
        QasmFile { registers, circuit }
    }

    /// The registers.
    pub fn registers(&self) -> &[Register]
        ensures { result.now ≡ self.now.registers }
    {
        &self.registers
    }

    /// The circuit; its limit is that of gates.
    pub fn circuit(&self) -> &Circuit
        ensures gates { result.now.gates ≡ self.now.gates }
        ensures lines { result.now.lines ≡ lines_of_all self.now.registers }
        ensures limit { result.now.limit ≡ MOST_GATES }
    {
        &self.circuit
    }

    /// The circuit, given away. It takes no memory.
    pub fn into_circuit(self) -> Circuit
        ensures gates { result.gates ≡ self.gates }
        ensures lines { result.lines ≡ lines_of_all self.registers }
        ensures limit { result.limit ≡ MOST_GATES }
    {
        let QasmFile { circuit, .. } = self;
        circuit
    }
}

/// Why a text means no file: the place of the first token that breaks a rule (`Token`), or that
/// passes a limit and else keeps the form (`Limit`). The end of the text counts as a token.
/// `Memory` is want of memory.
#[derive(Clone, Copy, Debug)]
pub enum QasmFault {
    Token { at: Place },
    Limit { at: Place },
    Memory(Memory),
}

impl<M: WantOfMemory> From<M> for QasmFault {
    ghost from_gives = { λ _ e. e ≡ faults.Memory _ };

    fn from(want: M) -> QasmFault {
        QasmFault::Memory(want.memory())
    }
}
