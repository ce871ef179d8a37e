// `stat`: the counts and the depth of a circuit.
ghost use Rattle.std.specs.Prelude.{◌≡◌, ◌≤◌, length, IfOk, IfErr};
ghost use Rattle.revc_io.specs.Faults.{HasCause};
ghost use Rattle.revc_io.specs.Passing.{Writes};
ghost use Rattle.circuit_commands.specs.declared.limits.TheConstants.{MOST_CIRCUIT_BYTES};
ghost use Rattle.command_answers.specs.Outcomes.{HasOneOutcome};
ghost use Rattle.circuit_commands.specs.Stat.{IsMeasured, promise, sizes_of};
ghost use Rattle.circuit_commands.specs.Stat.{stat_text};
ghost use Rattle.circuit_commands.specs.Outcomes.{IsCircuitFault};

use crate::circuit::{MarkedCircuit, read_circuit};
use command_answers::{Fault, write_numbers};
use mct_circuit::Counts;
use revc_io::{Failed, Sink};
use revc_words::Format;
use std::alloc::Global;

/// The sizes of a circuit: how many lines it has, how many gates, how many of each kind, and how
/// deep they stand.
#[derive(Clone, Copy)]
pub struct Sizes {
    pub lines: u32,
    pub gates: u64,
    pub counts: Counts,
    pub depth: u64,
}

/// What `stat` gives, its causes and where it serves exclude one another, and it has one cause at
/// most.
pub fn one_outcome()
    ensures { HasOneOutcome promise }
{}

/// The sizes of the circuit that a text means. A fault is exactly the text's, or want of memory.
pub fn measure(alloc: Global, text: &[u8], from: Format) -> Result<Sizes, Fault>
    requires { length text.now ≤ MOST_CIRCUIT_BYTES }
    ensures ok { IfOk result (λ sizes. IsMeasured from text.now (stat_text sizes)) }
    ensures err { IfErr result (IsCircuitFault from text.now) }
{
    let source = read_circuit(alloc, text, from)?;
    sizes_of(&source)
}

// The sizes of a circuit. A fault is want of memory.
fn sizes_of(source: &MarkedCircuit) -> Result<Sizes, Fault>
    ensures ok { IfOk result (λ sizes. sizes ≡ sizes_of source.now) }
    ensures err { IfErr result (λ fault. fault ≡ Fault.Memory _) }
{
    let circuit = source.circuit();
    Ok(Sizes {
        lines: circuit.lines(),
        gates: circuit.len(),
        counts: circuit.counts(),
        depth: circuit.depth()?,
    })
}

/// Writes the lines of the sizes. It takes no memory.
pub fn write<K: Sink>(sizes: &Sizes, out: &mut K) -> Result<(), Failed>
    ensures bytes { Writes result (K.held out.old) (K.held out.new) (stat_text sizes.now) }
    ensures cause { HasCause (K.faults out.old) (K.faults out.new) result }
{
    let counts = sizes.counts;
    write_numbers(
        &[
            (b"lines ", sizes.lines as u64),
            (b"gates ", sizes.gates),
            (b"x ", counts.x),
            (b"cx ", counts.cx),
            (b"ccx ", counts.ccx),
            (b"wide ", counts.wide),
            (b"swap ", counts.swap),
            (b"depth ", sizes.depth),
        ],
        out,
    )
}
