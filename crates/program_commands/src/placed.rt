// `compile`: the circuit of a program, with the outputs where the order says.
ghost use Rattle.std.specs.Prelude.{◌≤◌, length, IfOk, IfErr};
ghost use Rattle.command_answers.specs.Outcomes.{HasOneOutcome};
ghost use Rattle.program_commands.specs.Outcomes.{IsWritable, file_of};
ghost use Rattle.program_commands.specs.Placed.{Gives, IsCompilingFault, promise};
ghost use Rattle.revc_words.specs.Words.{IsWithinLimits, order_of};

use crate::compile::compile;
use crate::in_place::compile_in_place;
use circuit_plans::{Laid, Placing};
use command_answers::Fault;
use revc_words::Order;
use revs_parser::MOST_BYTES;
use std::alloc::Global;

/// What `compile` gives, its exact causes and where it serves exclude one another, and it has one
/// exact cause at most.
pub fn one_outcome()
    ensures { HasOneOutcome promise }
{}

/// The circuit of a text's program, whose outputs are added to output lines or stand in place of
/// the inputs, as the order says.
pub fn compile_placed(alloc: Global, text: &[u8], order: &Order) -> Result<Laid, Fault>
    requires short { length text.now ≤ MOST_BYTES }
    requires limits { IsWithinLimits (order_of order.now) }
    ensures ok { IfOk result (λ laid. Gives (order_of order.now) text.now
        (file_of order.now.values.format laid)) }
    ensures writable { IfOk result IsWritable }
    ensures err { IfErr result (IsCompilingFault (order_of order.now) text.now) }
{
    match order.values.outputs {
        Placing::Added(_) => compile(alloc, text, order),
        Placing::InPlace => compile_in_place(alloc, text, order),
    }
}
