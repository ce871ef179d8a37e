// A circuit against a settled graph.
ghost use Rattle.std.specs.Prelude.{◌≤◌, IfErr, OnOk};
ghost use Rattle.circuit_verify.specs.Verdicts.{IsVerified, IsVerifyFault};
ghost use Rattle.circuit_verify.specs.Compared.{comparison};

use crate::VerifyFault;
use crate::compared::Compared;
use crate::judging::judge;
use crate::looking::looked_ends;
use crate::places::all_variables;
use decision_diagram::Diagram;
use std::alloc::Global;

/// Verifies that a circuit computes the outputs of a settled graph: on every input that is looked
/// at, whatever the output lines hold that they may, with 0 on the work lines and whatever the
/// borrowed lines hold, the outputs are added to the output lines, or take the place of the inputs,
/// and every other line is left as it was.
///
/// `limit` bounds the inner nodes of the decision diagram of all functions that the nodes and the
/// lines come to hold, and that the lines should hold, with those where only inputs count that are
/// looked at. One gate is one call of the diagram, and so is one output, and each end of a line.
///
/// # Errors
///
/// `Diagram` only where the functions are more than the limit, `Differs` exactly where a line ends
/// with another bit than it should, and `Memory` for want of memory.
pub fn verify(alloc: Global, compared: &Compared, limit: u32) -> Result<(), VerifyFault>
    requires { 1 ≤ limit }
    ensures verified { OnOk result (IsVerified (comparison compared.now)) }
    ensures refused { IfErr result (IsVerifyFault (comparison compared.now) limit) }
{
    let count = compared.variables();
    let variables = all_variables(alloc, compared)?;
    let mut diagram = Diagram::new(alloc, count, limit)?;
    let ends = looked_ends(alloc, &mut diagram, compared, &variables)?;
    judge(alloc, &diagram, compared, &variables, &ends)
}
