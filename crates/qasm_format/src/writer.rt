// The writer of files, piece by piece.
ghost use Rattle.std.specs.Prelude.{◌≡◌, ◌≤◌, true, length, ⊤};
ghost use Rattle.mct_circuit.specs.Gates.{AreNarrow};
ghost use Rattle.circuit_plans.specs.declared.plan.TheConstants.{MOST_LINES, MOST_GATES};
ghost use Rattle.circuit_plans.specs.Plans.{roles_of};
ghost use Rattle.revc_io.specs.Faults.{HasCause};
ghost use Rattle.revc_io.specs.Passing.{Writes};
ghost use Rattle.qasm_format.specs.Written.{file_text};
ghost use Rattle.qasm_format.specs.Compiled.{register_name, compiled_text, MeansCompiled};
ghost use Rattle.qasm_format.specs.Converted.{converted_text, MeansConverted};
ghost use Rattle.qasm_format.specs.inside.Naming.{count_of, registers_by, place_by};
ghost use Rattle.qasm_format.specs.inside.Parts.{register_text, word_text, header_text, flip_texts};
ghost use Rattle.qasm_format.specs.inside.Parts.{registered_text};

use crate::naming::{Naming, Place, added_lines, kept_lines, opened_name};
use circuit_plans::{Laid, Narrow, Role};
use format_parts::{FlipWriter, write_circuit};
use mct_circuit::Circuit;
use revc_io::{Buffer, Failed, Literal, Piece, Sink};

/// Writes the file of a compiled circuit in OpenQASM 2.0: its lines are those of the registers
/// `inp`, `outp`, `work` and `dirty`, by the roles that the plan gives them. Where it fails, the
/// sink took a front of the text. It takes no memory. The format is that of OpenQASM (Cross,
/// Bishop, Smolin, Gambetta: Open Quantum Assembly Language, 2017, arXiv:1707.03429).
pub fn write<K: Sink>(laid: &Laid, out: &mut K) -> Result<(), Failed>
    requires some { 1 ≤ laid.now.circuit.lines }
    requires few { laid.now.circuit.lines ≤ MOST_LINES }
    requires few_gates { length laid.now.circuit.gates ≤ MOST_GATES }
    ensures bytes { Writes result (K.held out.old) (K.held out.new)
        (compiled_text (roles_of laid.now) laid.now.circuit.gates) }
    ensures meaning { MeansCompiled (compiled_text (roles_of laid.now) laid.now.circuit.gates)
        (roles_of laid.now) laid.now.circuit.gates }
    ensures cause { HasCause (K.faults out.old) (K.faults out.new) result }
{
    let circuit = laid.circuit();
    // This call says that the gates are on the circuit's lines.
    let _ = circuit.lines();
    write_file(circuit, Naming::ByRole(laid.roles()), out)
}

/// Writes the file of a circuit in OpenQASM 2.0: its lines are those of the register `q`, and where
/// a line was added, the last one is that of the register `dirty`. Where it fails, the sink took a
/// front of the text. It takes no memory.
pub fn write_lines<K: Sink>(circuit: &Narrow, added: bool, out: &mut K) -> Result<(), Failed>
    requires some { 1 ≤ circuit.now.lines }
    requires two { added ≡ true → 2 ≤ circuit.now.lines }
    requires few { circuit.now.lines ≤ MOST_LINES }
    requires few_gates { length circuit.now.gates ≤ MOST_GATES }
    ensures bytes { Writes result (K.held out.old) (K.held out.new)
        (converted_text circuit.now.lines added circuit.now.gates) }
    ensures meaning { MeansConverted (converted_text circuit.now.lines added circuit.now.gates)
        circuit.now.lines added circuit.now.gates }
    ensures cause { HasCause (K.faults out.old) (K.faults out.new) result }
{
    let circuit = circuit.circuit();
    let lines = circuit.lines();
    write_file(circuit, Naming::ByNumber { lines, added }, out)
}

fn write_file<K: Sink>(circuit: &Circuit, naming: Naming, out: &mut K) -> Result<(), Failed>
    requires fits { count_of naming ≡ circuit.now.lines }
    requires some { 1 ≤ circuit.now.lines }
    requires few { circuit.now.lines ≤ MOST_LINES }
    requires narrow { AreNarrow circuit.now.gates }
    ensures bytes { Writes result (K.held out.old) (K.held out.new)
        (file_text (registers_by naming) (place_by naming) circuit.now.gates) }
    ensures cause { HasCause (K.faults out.old) (K.faults out.new) result }
{
    write_circuit(Header(naming), circuit, naming, b"", out)
}

// ---- the head and the registers

// What stands before the gates.
#[derive(Clone, Copy)]
struct Header(Naming);

impl Piece for Header {
    ghost can_put = { λ header. 1 ≤ count_of header.0 };

    ghost bytes = { λ header. header_text header.0 };

    fn put<K: Sink>(self, buffer: &mut Buffer, out: &mut K) -> Result<(), Failed> {
        let head = b"OPENQASM 2.0;\ninclude \"qelib1.inc\";\n";
        match self.0 {
            Naming::ByRole(roles) => {
                let inputs = register_of(Role::Input, roles.inputs);
                let outputs = register_of(Role::Output, roles.outputs);
                let work = register_of(Role::Work, roles.work);
                let borrowed = register_of(Role::Borrowed, roles.borrowed);
                (head, inputs, (outputs, work, borrowed)).put(buffer, out)
            }
            Naming::ByNumber { lines, added } => {
                let kept = Place {
                    front: b"q[",
                    number: kept_lines(lines, added),
                    back: b"];\n",
                };
                let other = Register(Place {
                    front: b"dirty[",
                    number: added_lines(added),
                    back: b"];\n",
                });
                (head, (b"qreg ", kept), other).put(buffer, out)
            }
        }
    }
}

// The register of a role's lines.
fn register_of(role: Role, size: u32) -> Register
    ensures { registered_text result.0.front.now result.0.number result.0.back.now
        ≡ register_text (register_name role) size }
{
    Register(Place {
        front: opened_name(role),
        number: size,
        back: b"];\n",
    })
}

// A register of so many lines, which is left out where it has none.
#[derive(Clone, Copy)]
struct Register(Place);

impl Piece for Register {
    ghost can_put = { λ _. ⊤ };

    ghost bytes = { λ register.
        registered_text register.0.front.now register.0.number register.0.back.now };

    fn put<K: Sink>(self, buffer: &mut Buffer, out: &mut K) -> Result<(), Failed> {
        if self.0.number == 0 {
            return Ok(());
        }
        (b"qreg ", self.0).put(buffer, out)
    }
}

// ---- the gates

// A gate is its word, then the places of its lines, the target's last.
impl FlipWriter for Naming {
    type Word = Literal;

    type Control = Place;

    type Target = Place;

    ghost count = { count_of };

    ghost texts = { λ naming. flip_texts (place_by naming) };

    fn word(self, controls: usize) -> Literal {
        Literal(gate_word(controls))
    }

    fn control(self, line: u32) -> Place {
        self.place(line, b"],")
    }

    fn target(self, line: u32) -> Place {
        self.place(line, b"];\n")
    }
}

// The word of a gate with so many controls, and a space.
fn gate_word(controls: usize) -> &'static [u8]
    requires { controls ≤ 2 }
    ensures { result.now ≡ word_text controls }
{
    match controls {
        0 => b"x ",
        1 => b"cx ",
        _ => b"ccx ",
    }
}
