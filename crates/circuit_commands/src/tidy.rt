// `tidy`: the file of fewer narrow gates in place of a circuit's gates, or of gates in a better
// order.
ghost use Rattle.std.specs.Prelude.{◌≤◌, length, IfOk, IfErr};
ghost use Rattle.circuit_tidy.specs.Tidied.{IsTidied};
ghost use Rattle.command_answers.specs.Outcomes.{HasOneOutcome};
ghost use Rattle.circuit_commands.specs.declared.limits.TheConstants.{MOST_CIRCUIT_BYTES};
ghost use Rattle.circuit_commands.specs.Circuits.{line_count};
ghost use Rattle.circuit_commands.specs.Outcomes.{IsConversion, IsConvertFault};
ghost use Rattle.circuit_commands.specs.Tidy.{AreMadeFor, IsTidiedFor, most_gates, promise};
ghost use Rattle.circuit_commands.specs.inside.Splitting.{IsRemade, SplitsText};

use crate::convert::{Converted, split_text};
use crate::limits::MOST_TIDIED_GATES;
use circuit_plans::MOST_GATES;
use command_answers::Fault;
use revc_base::Memory;
use revc_words::{Aim, Format};
use std::alloc::Global;

/// What `tidy` gives, its causes and where it serves exclude one another, and it has one cause at
/// most.
pub fn one_outcome()
    ensures { HasOneOutcome promise }
{}

/// A circuit of narrow gates that are made of the split list of a text's circuit, on its lines, or
/// exactly where a gate wants an idle line there, on one more: tidied gates, those in an order of a
/// smaller depth, or the list itself in such an order. A fault is exactly that of the text or of
/// the split, or want of memory. The text is let go once it is read.
pub fn tidy(alloc: Global, text: Vec<u8>, from: Format, aim: Aim) -> Result<Converted, Fault>
    requires { length text.items ≤ MOST_CIRCUIT_BYTES }
    ensures ok { IfOk result (IsConversion (IsTidiedFor aim) from text.items) }
    ensures err { IfErr result (IsConvertFault (most_gates aim) from text.items) }
{
    let split = split_for(alloc, text, from, aim)?;
    let made = made_for(alloc, split, aim)?;
    Ok(made)
}

// The split list of a text's circuit, of as many gates as it may have for an aim.
fn split_for(alloc: Global, text: Vec<u8>, from: Format, aim: Aim) -> Result<Converted, Fault>
    requires { length text.items ≤ MOST_CIRCUIT_BYTES }
    ensures ok { IfOk result (SplitsText (most_gates aim) from text.items) }
    ensures err { IfErr result (IsConvertFault (most_gates aim) from text.items) }
{
    match aim {
        Aim::Gates | Aim::Depth => split_text(alloc, text, from, MOST_TIDIED_GATES),
        Aim::Order => split_text(alloc, text, from, MOST_GATES),
    }
}

fn made_for(alloc: Global, split: Converted, aim: Aim) -> Result<Converted, Memory>
    ensures { IfOk result (IsRemade (AreMadeFor aim (line_count split.circuit)) split) }
{
    match aim {
        Aim::Gates => tidied(alloc, split),
        Aim::Depth => tidied(alloc, split)?.in_best_order(alloc),
        Aim::Order => split.in_best_order(alloc),
    }
}

fn tidied(alloc: Global, split: Converted) -> Result<Converted, Memory>
    ensures { IfOk result (IsRemade (IsTidied (line_count split.circuit)) split) }
{
    let tidied = circuit_tidy::tidy(alloc, split.narrow())?;
    Ok(split.with_gates(tidied))
}
