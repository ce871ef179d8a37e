// `bench`: the sizes of an adder's program, and of its compiled circuit.
ghost use Rattle.std.specs.Prelude.{◌≡◌, ◌≤◌, length, IfOk, IfErr};
ghost use Rattle.command_answers.specs.Outcomes.{HasOneOutcome};
ghost use Rattle.circuit_plans.specs.Plans.{roles_of};
ghost use Rattle.program_commands.specs.Bench.{promise, AreSizesOf, IsBenched};
ghost use Rattle.program_commands.specs.Bench.{bench_text};
ghost use Rattle.program_commands.specs.Outcomes.{IsAdderSize, IsBudgetFault, IsCompileFault};
ghost use Rattle.program_texts.specs.Settling.{LeavesTape};
ghost use Rattle.arith_templates.specs.Adder.{adder_text};
ghost use Rattle.revc_io.specs.Faults.{HasCause};
ghost use Rattle.revc_io.specs.Passing.{Writes};
ghost use Rattle.revc_words.specs.Words.{IsWithinLimits, order_of};
ghost use Rattle.revs_terms.specs.declared.limits.TheConstants.{MOST_RUN_WRITES};

use crate::planning::plan_tape;
use arith_templates::Kind;
use circuit_plans::Laid;
use command_answers::{Fault, write_numbers};
use program_texts::tape_of_text;
use revc_io::{Failed, Sink};
use revc_words::Order;
use revs_tape::Tape;
use std::alloc::Global;

/// The sizes of a program's tape, and of its compiled circuit: how many inputs, outputs and writes
/// the tape has and how wide it is; how many lines and gates the circuit has and how deep the gates
/// stand.
#[derive(Clone, Copy)]
pub struct BenchSizes {
    pub inputs: u32,
    pub outputs: u32,
    pub writes: u32,
    pub width: u64,
    pub lines: u32,
    pub gates: u64,
    pub depth: u64,
}

/// What `bench` gives, its exact causes and where it serves exclude one another, and it has one
/// exact cause at most.
pub fn one_outcome()
    ensures { HasOneOutcome promise }
{}

/// The sizes of the program of an adder of the order's number of bits, and of the circuit that
/// `compile` makes of it. A fault is a budget that `compile` passes for the adder's text, or want
/// of memory.
pub fn measure(alloc: Global, order: &Order) -> Result<BenchSizes, Fault>
    requires limits { IsWithinLimits (order_of order.now) }
    requires size { IsAdderSize order.now.number }
    ensures ok { IfOk result (λ sizes. IsBenched (order_of order.now) (bench_text sizes)) }
    ensures err { IfErr result (IsBudgetFault (order_of order.now) (adder_text order.now.number)) }
{
    let text = arith_templates::text(alloc, Kind::Add, order.number, 0)?;
    let tape = tape_of_text(alloc, text.as_slice())?;
    measure_tape(alloc, &tape, order)
}

// The sizes of the tape of an adder of the order's number of bits, and of its circuit.
fn measure_tape(alloc: Global, tape: &Tape, order: &Order) -> Result<BenchSizes, Fault>
    requires limits { IsWithinLimits (order_of order.now) }
    requires left { LeavesTape (adder_text order.now.number) tape.now }
    requires few { length tape.now.entries ≤ MOST_RUN_WRITES }
    ensures ok { IfOk result (λ sizes. IsBenched (order_of order.now) (bench_text sizes)) }
    ensures err { IfErr result (IsCompileFault (order_of order.now) (adder_text order.now.number)) }
{
    let laid = plan_tape(alloc, tape, order)?;
    sizes_of(tape, &laid)
}

// The sizes of a tape, and of a plan's circuit. A fault is want of memory.
fn sizes_of(tape: &Tape, laid: &Laid) -> Result<BenchSizes, Fault>
    ensures ok { IfOk result
        (λ sizes. AreSizesOf tape.now (roles_of laid.now) laid.now.circuit.gates sizes) }
    ensures err { IfErr result (λ fault. fault ≡ Fault.Memory _) }
{
    let circuit = laid.circuit();
    let width = tape.width()?;
    let depth = circuit.depth()?;
    Ok(BenchSizes {
        inputs: tape.inputs(),
        outputs: tape.outputs().len() as u32,
        writes: tape.len(),
        width,
        lines: circuit.lines(),
        gates: circuit.len(),
        depth,
    })
}

/// Writes the lines of the sizes. It takes no memory.
pub fn write<K: Sink>(sizes: &BenchSizes, out: &mut K) -> Result<(), Failed>
    ensures bytes { Writes result (K.held out.old) (K.held out.new) (bench_text sizes.now) }
    ensures cause { HasCause (K.faults out.old) (K.faults out.new) result }
{
    write_numbers(
        &[
            (b"inputs ", sizes.inputs as u64),
            (b"outputs ", sizes.outputs as u64),
            (b"writes ", sizes.writes as u64),
            (b"width ", sizes.width),
            (b"lines ", sizes.lines as u64),
            (b"gates ", sizes.gates),
            (b"depth ", sizes.depth),
        ],
        out,
    )
}
