// A file as it was read, and why a text means none.
ghost use Rattle.std.specs.Prelude.{◌≡◌, length};
ghost use Rattle.circuit_plans.specs.declared.plan.TheConstants.{MOST_GATES};
ghost use Rattle.real_format.specs.declared.file.RealFault.TheVariants as faults;
ghost use Rattle.real_format.specs.Real.{RealView};

use mct_circuit::Circuit;
use revc_base::{Memory, Text, WantOfMemory};
use std::marker::Model;

/// What a `.real` file says of the bit with which a line starts: nothing (`-`), 0 or 1.
#[derive(Clone, Copy, PartialEq)]
pub enum Mark {
    Free,
    Zero,
    One,
}

/// Why a text means no file: its first line that breaks a rule of form, or passes a limit. Lines
/// are counted from 1, the empty ones too; a text that ends before `.end` is refused at one more
/// than the number of its lines. `Memory` is want of memory.
#[derive(Clone, Copy, Debug)]
pub enum RealFault {
    Line { number: u32 },
    Limit { number: u32 },
    Memory(Memory),
}

impl<M: WantOfMemory> From<M> for RealFault {
    ghost from_gives = { λ _ e. e ≡ faults.Memory _ };

    fn from(want: M) -> RealFault {
        RealFault::Memory(want.memory())
    }
}

/// A file: for each line its name, the bit with which it starts and whether its last bit is of no
/// use, and the circuit on these lines. Contracts see it as the names, the marks and the gates.
#[derive(Drop)]
pub struct RealFile {
    names: Vec<Text>,
    constants: Vec<Mark>,
    garbage: Vec<bool>,
    circuit: Circuit,
}

impl Model for RealFile {
    ghost Value = { RealView };

    ghost view = { λ f. record {
      names = f.names.items;
      constants = f.constants.items;
      garbage = f.garbage.items;
      gates = f.circuit.gates;
    } };

    ghost invariant = { λ f. (f.circuit.lines ≡ length f.names.items)
        × (f.circuit.limit ≡ MOST_GATES) × (length f.constants.items ≡ length f.names.items)
        × (length f.garbage.items ≡ length f.names.items) };
}

impl RealFile {
    // The file of these parts, each of which has one element for each line.
    pub(crate) fn new(
        names: Vec<Text>,
        constants: Vec<Mark>,
        garbage: Vec<bool>,
        circuit: Circuit,
    ) -> RealFile
        requires lines { circuit.lines ≡ length names.items }
        requires limit { circuit.limit ≡ MOST_GATES }
        requires constants { length constants.items ≡ length names.items }
        requires garbage { length garbage.items ≡ length names.items }
        ensures { result ≡ record {
          names = names.items;
          constants = constants.items;
          garbage = garbage.items;
          gates = circuit.gates;
        } }
    {
        RealFile {
            names,
            constants,
            garbage,
            circuit,
        }
    }

    /// The names of the lines, in their order. It takes no memory.
    pub fn names(&self) -> &[Text]
        ensures { result.now ≡ self.now.names }
    {
        &self.names
    }

    /// With which bit each line starts. It takes no memory.
    pub fn constants(&self) -> &[Mark]
        ensures constants { result.now ≡ self.now.constants }
        ensures fit { length self.now.constants ≡ length self.now.names }
    {
        &self.constants
    }

    /// For each line whether its last bit is of no use. It takes no memory.
    pub fn garbage(&self) -> &[bool]
        ensures garbage { result.now ≡ self.now.garbage }
        ensures fit { length self.now.garbage ≡ length self.now.names }
    {
        &self.garbage
    }

    /// The circuit on the lines; its limit is that of gates. It takes no memory.
    pub fn circuit(&self) -> &Circuit
        ensures lines { result.now.lines ≡ length self.now.names }
        ensures limit { result.now.limit ≡ MOST_GATES }
        ensures gates { result.now.gates ≡ self.now.gates }
    {
        &self.circuit
    }

    /// The marks of the lines and the circuit on them, given away. It takes no memory.
    pub fn into_parts(self) -> (Vec<Mark>, Vec<bool>, Circuit)
        ensures constants { result.0.items ≡ self.constants }
        ensures garbage { result.1.items ≡ self.garbage }
        ensures gates { result.2.gates ≡ self.gates }
        ensures lines { result.2.lines ≡ length self.constants }
        ensures limit { result.2.limit ≡ MOST_GATES }
        ensures fit { length self.garbage ≡ length self.constants }
    {
        let RealFile {
            constants,
            garbage,
            circuit,
            ..
        } = self;
        (constants, garbage, circuit)
    }
}
