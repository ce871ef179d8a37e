// How the gates of a narrow circuit are written: each is a flip, in a line of its own.
ghost use Rattle.std.specs.Prelude.{◌≡◌, ℕ, ◌<◌, ◌≤◌, ◌++◌, map};
ghost use Rattle.mct_circuit.specs.Gates.{AreNarrow};
ghost use Rattle.mct_circuit.specs.declared.gate.Control.{Control};
ghost use Rattle.circuit_plans.specs.declared.plan.TheConstants.{MOST_LINES};
ghost use Rattle.revc_io.specs.Faults.{HasCause};
ghost use Rattle.revc_io.specs.Passing.{Writes};
ghost use Rattle.format_parts.specs.Flips.{FlipTexts, gates_text, AreControlsOn, AreFlipsOn};
ghost use Rattle.format_parts.specs.Flips.{gate_text};

use mct_circuit::{Circuit, Control, Gate, Op};
use revc_io::{Each, Failed, Piece, Pieces, Sink, write_whole};

/// How a format writes a flip: the word of the gate, each control and then the target.
pub trait FlipWriter: Copy {
    /// The word of a gate.
    type Word: Piece;

    /// A control.
    type Control: Piece;

    /// The target and the end of the gate.
    type Target: Piece;

    // The number of lines.
    ghost count: { Self → ℕ };

    // The text of each part of a flip.
    ghost texts: { Self → FlipTexts };

    /// The word of a flip with so many controls.
    fn word(self, controls: usize) -> Self::Word
        requires { controls ≤ 2 }
        ensures can { Self.Word.can_put result }
        ensures bytes { Self.Word.bytes result ≡ (texts self).word controls };

    /// A control, by its line.
    fn control(self, line: u32) -> Self::Control
        requires few { count self ≤ MOST_LINES }
        requires in_range { line < count self }
        ensures can { Self.Control.can_put result }
        ensures bytes { Self.Control.bytes result ≡ (texts self).control line };

    /// The target, by its line, and the end of the gate.
    fn target(self, line: u32) -> Self::Target
        requires few { count self ≤ MOST_LINES }
        requires in_range { line < count self }
        ensures can { Self.Target.can_put result }
        ensures bytes { Self.Target.bytes result ≡ (texts self).target line };
}

/// Writes the text of a narrow circuit: a head, the gates one after another, and an end. Where it
/// fails, the sink took a front of the text. It takes no memory.
pub fn write_circuit<H: Piece, W: FlipWriter, K: Sink>(
    head: H,
    circuit: &Circuit,
    writer: W,
    end: &[u8],
    out: &mut K,
) -> Result<(), Failed>
    requires can { H.can_put head }
    requires fits { W.count writer ≡ circuit.now.lines }
    requires few { circuit.now.lines ≤ MOST_LINES }
    requires narrow { AreNarrow circuit.now.gates }
    ensures bytes { Writes result (K.held out.old) (K.held out.new)
        (H.bytes head ++ (gates_text (W.texts writer) circuit.now.gates ++ end.now)) }
    ensures cause { HasCause (K.faults out.old) (K.faults out.new) result }
{
    let gates = circuit.gates();
    write_whole((head, Each(Gates { gates, writer }), end), out)
}

// The controls of a flip, one after another.
#[derive(Clone, Copy)]
struct Controls<'a, W> {
    controls: &'a [Control],
    writer: W,
}

impl<'a, W: FlipWriter> Pieces for Controls<'a, W> {
    type Item = W::Control;

    ghost can_put_each = { λ flip. AreControlsOn (W.count flip.writer) flip.controls.now };

    ghost list = { λ flip.
        map (λ (control : Control). (W.texts flip.writer).control control.line) flip.controls.now };

    fn len(self) -> usize {
        self.controls.len()
    }

    fn at(self, place: usize) -> W::Control {
        self.writer.control(self.controls[place].line)
    }
}

// The gates of a narrow circuit, one after another.
#[derive(Clone, Copy)]
struct Gates<'a, W> {
    gates: &'a [Gate],
    writer: W,
}

impl<'a, W: FlipWriter> Pieces for Gates<'a, W> {
    type Item = (W::Word, Each<Controls<'a, W>>, W::Target);

    ghost can_put_each = { λ circuit. AreFlipsOn (W.count circuit.writer) circuit.gates.now };

    ghost list = { λ circuit. map (gate_text (W.texts circuit.writer)) circuit.gates.now };

    fn len(self) -> usize {
        self.gates.len()
    }

    fn at(self, place: usize) -> (W::Word, Each<Controls<'a, W>>, W::Target) {
        let gate = &self.gates[place];
        let controls = gate.controls();
        let Op::Flip(target) = gate.op() else {
            unreachable!()
        };
        let writer = self.writer;
        (
            writer.word(controls.len()),
            Each(Controls { controls, writer }),
            writer.target(target),
        )
    }
}
