// The writer of files, piece by piece.
ghost use Rattle.std.specs.Prelude.{◌≡◌, ◌<◌, ◌≤◌, ◌∷◌, length, map, [], ⊤};
ghost use Rattle.std.specs.Fmt.{decimal};
ghost use Rattle.mct_circuit.specs.Gates.{AreNarrow};
ghost use Rattle.circuit_plans.specs.declared.plan.TheConstants.{MOST_LINES, MOST_GATES};
ghost use Rattle.circuit_plans.specs.Plans.{roles_of};
ghost use Rattle.revc_io.specs.Faults.{HasCause};
ghost use Rattle.revc_io.specs.Passing.{Writes};
ghost use Rattle.real_format.specs.Written.{file_text};
ghost use Rattle.real_format.specs.Compiled.{compiled_text, MeansCompiled};
ghost use Rattle.real_format.specs.Converted.{converted_text, MeansConverted};
ghost use Rattle.real_format.specs.inside.Labels.{count_of, name_by, constants_by, garbage_by};
ghost use Rattle.real_format.specs.inside.Labels.{HasMarks, all_names, mark_bytes};
ghost use Rattle.real_format.specs.inside.Parts.{header_text, flip_texts};

use crate::file::Mark;
use crate::labels::{Labels, MarkKind};
use circuit_plans::{Laid, Narrow};
use format_parts::{FlipWriter, write_circuit};
use mct_circuit::Circuit;
use revc_io::{Buffer, Byte, Decimal, Each, Failed, Piece, Pieces, Sink};

/// Writes the file of a compiled circuit, whose lines have the roles that the plan gives them.
/// Where it fails, the sink took a front of the text. It takes no memory. The format is that of
/// RevLib (Wille, Grosse, Teuber, Dueck, Drechsler: RevLib, an online resource for reversible
/// functions and reversible circuits, ISMVL 2008).
pub fn write<K: Sink>(laid: &Laid, out: &mut K) -> Result<(), Failed>
    requires some { 1 ≤ laid.now.circuit.lines }
    requires few { laid.now.circuit.lines ≤ MOST_LINES }
    requires few_gates { length laid.now.circuit.gates ≤ MOST_GATES }
    ensures bytes { Writes result (K.held out.old) (K.held out.new)
        (compiled_text (roles_of laid.now) laid.now.circuit.gates) }
    ensures meaning { MeansCompiled (compiled_text (roles_of laid.now) laid.now.circuit.gates)
        (roles_of laid.now) laid.now.circuit.gates }
    ensures cause { HasCause (K.faults out.old) (K.faults out.new) result }
{
    let circuit = laid.circuit();
    // This call says that the gates are on the circuit's lines.
    let _ = circuit.lines();
    write_file(circuit, Labels::ByRole(laid.roles()), out)
}

/// Writes the file of a circuit on lines `l0`, `l1` and so on, which have these marks. Where it
/// fails, the sink took a front of the text. It takes no memory.
pub fn write_lines<K: Sink>(
    circuit: &Narrow,
    constants: &[Mark],
    garbage: &[bool],
    out: &mut K,
) -> Result<(), Failed>
    requires some { 1 ≤ circuit.now.lines }
    requires few { circuit.now.lines ≤ MOST_LINES }
    requires few_gates { length circuit.now.gates ≤ MOST_GATES }
    requires constants { length constants.now ≡ circuit.now.lines }
    requires garbage { length garbage.now ≡ circuit.now.lines }
    ensures bytes { Writes result (K.held out.old) (K.held out.new)
        (converted_text constants.now garbage.now circuit.now.gates) }
    ensures meaning { MeansConverted (converted_text constants.now garbage.now circuit.now.gates)
        constants.now garbage.now circuit.now.gates }
    ensures cause { HasCause (K.faults out.old) (K.faults out.new) result }
{
    let circuit = circuit.circuit();
    // This call says that the gates are on the circuit's lines.
    let _ = circuit.lines();
    write_file(circuit, Labels::ByNumber { constants, garbage }, out)
}

fn write_file<K: Sink>(circuit: &Circuit, labels: Labels<'_>, out: &mut K) -> Result<(), Failed>
    requires fits { count_of labels ≡ circuit.now.lines }
    requires garbage { length (garbage_by labels) ≡ count_of labels }
    requires few { circuit.now.lines ≤ MOST_LINES }
    requires narrow { AreNarrow circuit.now.gates }
    ensures bytes { Writes result (K.held out.old) (K.held out.new)
        (file_text (name_by labels.entry) (count_of labels.entry) (constants_by labels.entry)
        (garbage_by labels.entry) circuit.now.gates) }
    ensures cause { HasCause (K.faults out.old) (K.faults out.new) result }
{
    write_circuit(Header(labels), circuit, labels, b".end\n", out)
}

// ---- the header

// What stands before the gates.
#[derive(Clone, Copy)]
struct Header<'a>(Labels<'a>);

impl Piece for Header<'_> {
    ghost can_put = { λ header. HasMarks header.0 };

    ghost bytes = { λ header. header_text header.0 };

    fn put<K: Sink>(self, buffer: &mut Buffer, out: &mut K) -> Result<(), Failed> {
        let labels = self.0;
        let count = Decimal(labels.lines() as u64);
        let names = Each(Names(labels));
        let constants = Each(Marks(labels, MarkKind::Constants));
        let garbage = Each(Marks(labels, MarkKind::Garbage));
        (
            (b".version 2.0\n.numvars ", count, b"\n"),
            (
                (b".variables", names, b"\n"),
                (b".inputs", names, b"\n"),
                (b".outputs", names, b"\n"),
            ),
            (
                (b".constants ", constants, b"\n"),
                (b".garbage ", garbage, b"\n"),
                b".begin\n",
            ),
        )
            .put(buffer, out)
    }
}

// The names of all lines, each behind a space.
#[derive(Clone, Copy)]
struct Names<'a>(Labels<'a>);

impl Pieces for Names<'_> {
    type Item = Name;

    ghost can_put_each = { λ names. count_of names.0 ≤ MOST_LINES };

    ghost list = { λ names. map (λ w. 32 ∷ w) (all_names names.0) };

    fn len(self) -> usize {
        self.0.lines() as usize
    }

    fn at(self, place: usize) -> Name {
        spaced_name(self.0, place as u32)
    }
}

// The marks of a kind of all lines.
#[derive(Clone, Copy)]
struct Marks<'a>(Labels<'a>, MarkKind);

impl Pieces for Marks<'_> {
    type Item = Byte;

    ghost can_put_each = { λ marks. HasMarks marks.0 };

    ghost list = { λ marks. map (λ b. b ∷ []) (mark_bytes marks.0 marks.1) };

    fn len(self) -> usize {
        self.0.lines() as usize
    }

    fn at(self, place: usize) -> Byte {
        Byte(self.0.byte(self.1, place as u32))
    }
}

// ---- the gates

// Two bytes, which are put at once.
#[derive(Clone, Copy)]
pub(crate) struct TwoBytes(u8, u8);

impl Piece for TwoBytes {
    ghost can_put = { λ _. ⊤ };

    ghost bytes = { λ bytes. bytes.0 ∷ bytes.1 ∷ [] };

    fn put<K: Sink>(self, buffer: &mut Buffer, out: &mut K) -> Result<(), Failed> {
        buffer.put(out, &[self.0, self.1])
    }
}

// A space and the letter of a line's name, and its number.
type Name = (TwoBytes, Decimal);

fn spaced_name(labels: Labels<'_>, line: u32) -> Name
    requires few { count_of labels ≤ MOST_LINES }
    requires in_range { line < count_of labels }
    ensures { 32 ∷ name_by labels.entry line
        ≡ result.0.0 ∷ result.0.1 ∷ decimal result.1.0 }
{
    let (letter, number) = labels.letter_and_number(line);
    (TwoBytes(b' ', letter), Decimal(number as u64))
}

// A gate is `t` and the number of its lines, then their names, the target's last.
impl FlipWriter for Labels<'_> {
    type Word = TwoBytes;

    type Control = Name;

    type Target = (Name, Byte);

    ghost count = { count_of };

    ghost texts = { λ labels. flip_texts (name_by labels) };

    fn word(self, controls: usize) -> TwoBytes {
        TwoBytes(b't', b'1' + controls as u8)
    }

    fn control(self, line: u32) -> Name {
        spaced_name(self, line)
    }

    fn target(self, line: u32) -> (Name, Byte) {
        (spaced_name(self, line), Byte(b'\n'))
    }
}
