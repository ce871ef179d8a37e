// The ends of the lines, where only inputs count that are looked at.
ghost use Rattle.std.specs.Prelude.{◌≡◌, ◌<◌, length, IfErr, IfOk};
ghost use Rattle.decision_diagram.specs.Growth.{StandsFor};
ghost use Rattle.claim_check.specs.Variables.{AreVariables};
ghost use Rattle.circuit_verify.specs.Comparisons.{order_in, variables_in};
ghost use Rattle.circuit_verify.specs.Verdicts.{IsVerifyFault};
ghost use Rattle.circuit_verify.specs.Compared.{comparison};
ghost use Rattle.circuit_verify.specs.inside.Numbers.{AreLineEnds, AreLookedEnds};
ghost use Rattle.circuit_verify.specs.inside.Numbers.{AreVariableNumbers};
ghost use Rattle.circuit_verify.specs.inside.Numbers.{AreRestricted, GrowsBy, HoldsLines};
ghost use Rattle.circuit_verify.specs.inside.Numbers.{looked_function};

use crate::VerifyFault;
use crate::compared::Compared;
use crate::nodes::number_outputs;
use crate::places::number_bits;
use crate::walking::{Ends, ends_of};
use decision_diagram::{Dd, Diagram};
use std::alloc::Global;

// The number of the bit that the input is looked at.
fn number_looked(
    alloc: Global,
    diagram: &mut Diagram,
    compared: &Compared,
    bits: &[Dd],
) -> Result<Dd, VerifyFault>
    requires holds { HoldsLines (comparison compared.now) diagram.old }
    requires bits { AreVariableNumbers (comparison compared.now) diagram.old.nodes bits.now }
    ensures grows { GrowsBy (comparison compared.now) diagram.old diagram.new }
    ensures number { IfOk result (λ looked. StandsFor diagram.new.nodes looked
        (looked_function (comparison compared.now))) }
    ensures refused { IfErr result (IsVerifyFault (comparison compared.now) diagram.new.limit) }
{
    let _ = compared.variables(); // shows what is known of both
    let outputs = number_outputs(alloc, diagram, compared, compared.premise, bits)?;
    Ok(outputs[0])
}

// The numbers of the same bits, where the input is looked at. Where it always is, they are the
// same numbers.
fn restricted(
    alloc: Global,
    diagram: &mut Diagram,
    compared: &Compared,
    looked: Dd,
    numbers: &[Dd],
) -> Result<Vec<Dd>, VerifyFault>
    requires holds { HoldsLines (comparison compared.now) diagram.old }
    requires looked { StandsFor diagram.old.nodes looked
        (looked_function (comparison compared.now)) }
    requires ends { AreLineEnds (comparison compared.now) diagram.old.nodes numbers.now }
    ensures grows { GrowsBy (comparison compared.now) diagram.old diagram.new }
    ensures numbers { IfOk result (λ restricted. AreRestricted (comparison compared.now)
        diagram.old.nodes diagram.new.nodes numbers.now restricted.items) }
    ensures refused { IfErr result (IsVerifyFault (comparison compared.now) diagram.new.limit) }
{
    let _ = compared.variables(); // shows what is known of both
    let mut restricted = Vec::new(alloc);
    for number in numbers {
        let counted = diagram.and(*number, looked)?;
        restricted.push(counted)?;
    }
    Ok(restricted)
}

// The numbers of the lines behind all gates, and those that they should have, where the input is
// looked at. All diagrams are made before any two numbers are compared.
pub fn looked_ends(
    alloc: Global,
    diagram: &mut Diagram,
    compared: &Compared,
    variables: &[u32],
) -> Result<Ends, VerifyFault>
    requires variables { AreVariables (variables_in (comparison compared.now))
        (order_in (comparison compared.now)) variables.now }
    requires holds { HoldsLines (comparison compared.now) diagram.old }
    ensures grows { GrowsBy (comparison compared.now) diagram.old diagram.new }
    ensures ends { IfOk result (λ ends. AreLookedEnds (comparison compared.now) diagram.new.nodes
        ends.now.items ends.want.items) }
    ensures refused { IfErr result (IsVerifyFault (comparison compared.now) diagram.new.limit) }
{
    let _ = compared.variables(); // shows what is known of both
    let bits = number_bits(alloc, diagram, compared, variables)?;
    let ends = ends_of(alloc, diagram, compared, &bits)?;
    let looked = number_looked(alloc, diagram, compared, &bits)?;
    let now = restricted(alloc, diagram, compared, looked, &ends.now)?;
    let want = restricted(alloc, diagram, compared, looked, &ends.want)?;
    Ok(Ends { now, want })
}
