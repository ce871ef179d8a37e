// From a program text to the file of a clean circuit beside the inputs.
ghost use Rattle.std.specs.Prelude.{◌≤◌, length, IfOk, IfErr};
ghost use Rattle.program_commands.specs.Compile.{IsCompiled};
ghost use Rattle.program_commands.specs.Outcomes.{IsCompileFault, IsWritable, file_of};
ghost use Rattle.revc_io.specs.Faults.{HasCause};
ghost use Rattle.revc_io.specs.Passing.{Writes};
ghost use Rattle.revc_words.specs.Words.{IsWithinLimits, order_of};

use crate::ordering::in_best_order;
use crate::planning::plan_tape;
use circuit_plans::Laid;
use command_answers::Fault;
use program_texts::tape_of_text;
use revc_io::{Failed, Sink};
use revc_words::{Format, Order};
use revs_parser::MOST_BYTES;
use std::alloc::Global;

/// The plan of the clean file of a text's program, whose claims hold on the inputs that meet the
/// first so many, within the budgets of an order. A text is refused exactly for its refusal, a
/// claim stops exactly where it does, and that no input meets these exactly where none does; a
/// budget is passed only where no row of the budget numbers that the order allows fits; no other
/// fault comes but want of memory.
pub fn compile(alloc: Global, text: &[u8], order: &Order) -> Result<Laid, Fault>
    requires short { length text.now ≤ MOST_BYTES }
    requires limits { IsWithinLimits (order_of order.now) }
    ensures ok { IfOk result (λ laid. IsCompiled (order_of order.now) text.now
        (file_of order.now.values.format laid)) }
    ensures writable { IfOk result IsWritable }
    ensures err { IfErr result (IsCompileFault (order_of order.now) text.now) }
{
    let tape = tape_of_text(alloc, text)?;
    let laid = plan_tape(alloc, &tape, order)?;
    let ordered = in_best_order(alloc, laid, order.values.plan)?;
    Ok(ordered)
}

/// Writes the file of a clean plan in a format. It takes no memory.
pub fn write<K: Sink>(format: Format, laid: &Laid, out: &mut K) -> Result<(), Failed>
    requires { IsWritable laid.now }
    ensures bytes { Writes result (K.held out.old) (K.held out.new) (file_of format laid.now) }
    ensures cause { HasCause (K.faults out.old) (K.faults out.new) result }
{
    match format {
        Format::Real => real_format::write(laid, out),
        Format::Qasm => qasm_format::write(laid, out),
    }
}
