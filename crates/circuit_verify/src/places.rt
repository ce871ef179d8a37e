// The variables of a comparison, and the numbers of their bits.
ghost use Rattle.std.specs.Prelude.{◌≡◌, ◌+◌, ◌≤◌, ◌<◌, ◌^◌, ◌++◌, length, map, IfErr, IfOk, OnOk};
ghost use Rattle.list_facts.specs.Lists.{below};
ghost use Rattle.claim_check.specs.Variables.{AreVariables};
ghost use Rattle.circuit_verify.specs.Comparisons.{order_in, variables_in};
ghost use Rattle.circuit_verify.specs.Verdicts.{IsVerifyFault};
ghost use Rattle.circuit_verify.specs.Compared.{comparison};
ghost use Rattle.circuit_verify.specs.inside.Numbers.{AreVariableNumbers};
ghost use Rattle.circuit_verify.specs.inside.Numbers.{GrowsBy, HoldsLines};

use crate::VerifyFault;
use crate::compared::Compared;
use claim_check::variables;
use decision_diagram::{Dd, Diagram};
use revc_base::Memory;
use std::alloc::Global;

// The variable of each input, then of each output line that has one, and then of each borrowed
// line.
pub fn all_variables(alloc: Global, compared: &Compared) -> Result<Vec<u32>, Memory>
    ensures { IfOk result (λ all. AreVariables (variables_in (comparison compared.now))
        (order_in (comparison compared.now)) all.items) }
{
    let count = compared.variables();
    let mut all = variables(alloc, compared.params)?;
    for variable in compared.graph.inputs()..count {
        all.push(variable)?;
    }
    Ok(all)
}

// The number of the bit of each variable, in the same order.
pub fn number_bits(
    alloc: Global,
    diagram: &mut Diagram,
    compared: &Compared,
    variables: &[u32],
) -> Result<Vec<Dd>, VerifyFault>
    requires variables { AreVariables (variables_in (comparison compared.now))
        (order_in (comparison compared.now)) variables.now }
    requires holds { HoldsLines (comparison compared.now) diagram.old }
    ensures grows { GrowsBy (comparison compared.now) diagram.old diagram.new }
    ensures numbers { IfOk result (λ numbers. AreVariableNumbers (comparison compared.now)
        diagram.new.nodes numbers.items) }
    ensures refused { IfErr result (IsVerifyFault (comparison compared.now) diagram.new.limit) }
{
    let _ = compared.variables(); // shows what is known of both
    let mut numbers = Vec::new(alloc);
    for variable in variables {
        let number = diagram.input(*variable)?;
        numbers.push(number)?;
    }
    Ok(numbers)
}
