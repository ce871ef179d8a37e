// `compile --outputs inputs`: from a program text to the file of a circuit in place.
ghost use Rattle.std.specs.Prelude.{◌≡◌, ◌≤◌, length, IfOk, IfErr};
ghost use Rattle.program_commands.specs.InPlace.{IsCompiledInPlace};
ghost use Rattle.program_commands.specs.Outcomes.{IsWritable, file_of};
ghost use Rattle.program_commands.specs.inside.InPlace.{IsInPlaceFault, IsPlacedFor};
ghost use Rattle.program_texts.specs.Settling.{ForTexts, IsSettledWithin};
ghost use Rattle.revc_words.specs.Words.{IsWithinLimits, order_of};
ghost use Rattle.revs_terms.specs.declared.limits.TheConstants.{MOST_RUN_WRITES};

use circuit_plans::{Budget, Laid};
use claim_check::Settled;
use command_answers::Fault;
use in_place_circuits::find;
use program_texts::{settle_tape, tape_of_text};
use revc_words::Order;
use revs_parser::MOST_BYTES;
use revs_tape::Tape;
use std::alloc::Global;

/// The circuit in place of a text's program, whose claims hold on the inputs that meet the first so
/// many, within the budgets of an order: on each of these inputs it puts the outputs on the lines
/// of the inputs. A text is refused exactly for its refusal, a claim stops exactly where it does,
/// and outputs are lacking exactly where there are fewer than inputs; that no circuit is found may
/// come where there is one, and no other fault comes but want of memory.
pub fn compile_in_place(alloc: Global, text: &[u8], order: &Order) -> Result<Laid, Fault>
    requires short { length text.now ≤ MOST_BYTES }
    requires limits { IsWithinLimits (order_of order.now) }
    ensures ok { IfOk result (λ laid. IsCompiledInPlace (order_of order.now) text.now
        (file_of order.now.values.format laid)) }
    ensures writable { IfOk result IsWritable }
    ensures err { IfErr result (IsInPlaceFault (order_of order.now) text.now) }
{
    let tape = tape_of_text(alloc, text)?;
    let graph = settle_tape(&tape, order.values.assume, order.values.nodes)?;
    place(alloc, &tape, &graph, order)
}

// A circuit in place of a settled graph, within the budgets of an order.
fn place(alloc: Global, tape: &Tape, graph: &Settled, order: &Order) -> Result<Laid, Fault>
    requires limits { IsWithinLimits (order_of order.now) }
    requires few { length tape.now.entries ≤ MOST_RUN_WRITES }
    requires settled { IsSettledWithin tape.now (order_of order.now).assume
        (order_of order.now).nodes graph.now }
    ensures ok { IfOk result (λ laid. ForTexts tape.now
        (λ text. IsPlacedFor (order_of order.now) text tape.now laid)) }
    ensures err { IfErr result (λ fault. ForTexts tape.now
        (λ text. IsInPlaceFault (order_of order.now) text fault)) }
{
    let values = order.values;
    let (inputs, outputs) = (tape.inputs(), tape.outputs().len() as u32);
    if outputs < inputs {
        return Err(Fault::FewOutputs { inputs, outputs });
    }
    let budget = Budget::new(values.lines, values.gates, values.borrow);
    match find(alloc, tape, graph, values.assume, &budget, values.nodes)? {
        Some(laid) => {
            // This call says that the gates are on the circuit's lines.
            let _ = laid.circuit().lines();
            Ok(laid)
        }
        None => Err(Fault::NoCircuit),
    }
}
