// What the numbers of the lines say of a circuit.
ghost use Rattle.std.specs.Prelude.{◌≡◌, ◌≢◌, ◌<◌, ◌^◌, length, IfErr, IfOk, OnOk, MatchOption};
ghost use Rattle.std.specs.Prelude.{true};
ghost use Rattle.decision_diagram.specs.Diagrams.{IsNumber, function_of};
ghost use Rattle.decision_diagram.specs.Functions.{exclusive_or};
ghost use Rattle.claim_check.specs.Variables.{AreVariables};
ghost use Rattle.circuit_verify.specs.Comparisons.{order_in, variables_in};
ghost use Rattle.circuit_verify.specs.Verdicts.{IsVerified, IsVerifyFault};
ghost use Rattle.circuit_verify.specs.Compared.{comparison};
ghost use Rattle.circuit_verify.specs.inside.Numbers.{AreLookedEnds, DifferAt, HoldsLines};
ghost use Rattle.circuit_verify.specs.inside.Numbers.{IsLeastApart};

use crate::VerifyFault;
use crate::compared::Compared;
use crate::walking::Ends;
use claim_check::bits_of;
use decision_diagram::{Dd, Diagram};
use revc_base::{Bits, Memory};
use std::alloc::Global;

// The first line at which two lists of numbers differ.
fn first_difference(now: &[Dd], want: &[Dd]) -> Option<u32>
    requires size { length want.now ≡ length now.now }
    requires few { length now.now < 2 ^ 32 }
    ensures { MatchOption result (now.now ≡ want.now) (DifferAt now.now want.now) }
{
    for (line, number) in now.iter().enumerate() {
        if *number != want[line] {
            return Some(line as u32);
        }
    }
    None
}

// The least bits on which two functions differ, where they do.
fn least_difference(
    alloc: Global,
    diagram: &Diagram,
    f: Dd,
    g: Dd,
    variables: &[u32],
) -> Result<Bits, Memory>
    requires left { IsNumber diagram.now.nodes f }
    requires right { IsNumber diagram.now.nodes g }
    requires apart { f ≢ g }
    requires variables { length variables.now ≡ diagram.now.vars }
    ensures { IfOk result (IsLeastApart (exclusive_or (function_of diagram.now.nodes f)
        (function_of diagram.now.nodes g)) variables.now) }
{
    let mut assignment = vec![in alloc; false; variables.len()]?;
    let _ = diagram.differ(f, g, &mut assignment); // they do
    let bits = bits_of(alloc, &assignment, variables)?;
    Ok(Bits::new(bits))
}

// The circuit agrees, or the first line that differs is named with its least bits.
pub fn judge(
    alloc: Global,
    diagram: &Diagram,
    compared: &Compared,
    variables: &[u32],
    ends: &Ends,
) -> Result<(), VerifyFault>
    requires variables { AreVariables (variables_in (comparison compared.now))
        (order_in (comparison compared.now)) variables.now }
    requires holds { HoldsLines (comparison compared.now) diagram.now }
    requires ends { AreLookedEnds (comparison compared.now) diagram.now.nodes ends.now.now.items
        ends.now.want.items }
    ensures verified { OnOk result (IsVerified (comparison compared.now)) }
    ensures refused { IfErr result (IsVerifyFault (comparison compared.now) diagram.now.limit) }
{
    let _ = compared.variables(); // shows what is known of both
    let Some(line) = first_difference(&ends.now, &ends.want) else {
        return Ok(());
    };
    let (f, g) = (ends.now[line as usize], ends.want[line as usize]);
    let bits = least_difference(alloc, diagram, f, g, variables)?;
    Err(VerifyFault::Differs { line, bits })
}
