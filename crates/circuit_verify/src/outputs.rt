// The numbers of the input lines and the output lines, before the gates and as they should end.
ghost use Rattle.std.specs.Prelude.{◌≡◌, ◌≤◌, ◌++◌, length, IfErr, IfOk};
ghost use Rattle.claim_check.specs.Settled.{settled_outputs};
ghost use Rattle.circuit_plans.specs.Plans.{added};
ghost use Rattle.circuit_verify.specs.Comparisons.{input_bits, output_bits, output_variables};
ghost use Rattle.circuit_verify.specs.Comparisons.{IsAdded, wanted_ports};
ghost use Rattle.circuit_verify.specs.Verdicts.{IsVerifyFault};
ghost use Rattle.circuit_verify.specs.Compared.{comparison};
ghost use Rattle.circuit_verify.specs.inside.Numbers.{AreHeldNumbers, AreNumbersOf};
ghost use Rattle.circuit_verify.specs.inside.Numbers.{AreOutputNumbers, AreVariableNumbers};
ghost use Rattle.circuit_verify.specs.inside.Numbers.{GrowsBy, HoldsLines};
ghost use Rattle.circuit_verify.specs.inside.Numbers.{first_ports, held_numbers};

use crate::VerifyFault;
use crate::compared::Compared;
use crate::nodes::number_outputs;
use circuit_plans::{Placing, Start};
use decision_diagram::{Dd, Diagram};
use revc_base::Memory;
use std::alloc::{AllocError, Global};

// The numbers of the input lines and the output lines, before the gates and as they should be
// behind them.
#[derive(Drop)]
pub struct Ports {
    pub first: Vec<Dd>,
    pub wanted: Vec<Dd>,
}

// The first of the numbers behind those of the inputs, or `never` where the lines hold 0.
fn held_numbers(
    alloc: Global,
    placing: Placing,
    lines: u32,
    behind: &[Dd],
    never: Dd,
) -> Result<Vec<Dd>, AllocError>
    requires { output_variables placing lines ≤ length behind.now }
    ensures { IfOk result (λ held. held.items ≡ held_numbers placing lines never behind.now) }
{
    match placing {
        Placing::Added(Start::Any) => {
            let (first, _) = behind.split_at(lines as usize);
            copied(alloc, first)
        }
        Placing::Added(Start::Zero) => vec![in alloc; never; lines as usize],
        Placing::InPlace => vec![in alloc; never; lines as usize],
    }
}

// A copy of numbers.
fn copied(alloc: Global, numbers: &[Dd]) -> Result<Vec<Dd>, AllocError>
    ensures { IfOk result (λ copy. copy.items ≡ numbers.now) }
{
    let mut copy = Vec::new(alloc);
    copy.extend_from_slice(numbers)?;
    Ok(copy)
}

// Two lists of numbers, one behind the other.
pub fn joined(alloc: Global, front: &[Dd], back: &[Dd]) -> Result<Vec<Dd>, AllocError>
    ensures { IfOk result (λ all. all.items ≡ front.now ++ back.now) }
{
    let mut all = Vec::new(alloc);
    all.extend_from_slice(front)?;
    all.extend_from_slice(back)?;
    Ok(all)
}

// The number of the bit that each output line holds before the gates.
fn number_held(
    alloc: Global,
    diagram: &Diagram,
    compared: &Compared,
    bits: &[Dd],
) -> Result<Vec<Dd>, Memory>
    requires { AreVariableNumbers (comparison compared.now) diagram.now.nodes bits.now }
    ensures { IfOk result (λ held. AreHeldNumbers (comparison compared.now) diagram.now.nodes
        held.items) }
{
    let _ = compared.variables(); // shows what is known of both
    let never = diagram.truth(false);
    let (_, behind) = bits.split_at(compared.inputs() as usize);
    let lines = compared.output_lines();
    let held = held_numbers(alloc, compared.placing(), lines, behind, never)?;
    Ok(held)
}

// The number of each output added to what its line holds.
fn number_added(
    alloc: Global,
    diagram: &mut Diagram,
    compared: &Compared,
    held: &[Dd],
    outputs: &[Dd],
) -> Result<Vec<Dd>, VerifyFault>
    requires placing { IsAdded compared.now.placing }
    requires holds { HoldsLines (comparison compared.now) diagram.old }
    requires held { AreHeldNumbers (comparison compared.now) diagram.old.nodes held.now }
    requires outputs { AreOutputNumbers (comparison compared.now) compared.now.graph
        diagram.old.nodes outputs.now }
    ensures grows { GrowsBy (comparison compared.now) diagram.old diagram.new }
    ensures numbers { IfOk result (λ wanted. AreNumbersOf (comparison compared.now)
        diagram.new.nodes wanted.items (λ bits. added (output_bits (comparison compared.now) bits)
        (settled_outputs compared.now.graph (input_bits (comparison compared.now) bits)))) }
    ensures refused { IfErr result (IsVerifyFault (comparison compared.now) diagram.new.limit) }
{
    let _ = compared.variables(); // shows what is known of both
    let mut wanted = Vec::new(alloc);
    for line in 0..outputs.len() {
        let number = diagram.xor(held[line], outputs[line])?;
        wanted.push(number)?;
    }
    Ok(wanted)
}

// The numbers of the bits that the input lines and the output lines should hold: the outputs are
// added to what the output lines hold, or take the place of the inputs.
fn number_wanted(
    alloc: Global,
    diagram: &mut Diagram,
    compared: &Compared,
    bits: &[Dd],
    held: &[Dd],
    outputs: Vec<Dd>,
) -> Result<Vec<Dd>, VerifyFault>
    requires holds { HoldsLines (comparison compared.now) diagram.old }
    requires bits { AreVariableNumbers (comparison compared.now) diagram.old.nodes bits.now }
    requires held { AreHeldNumbers (comparison compared.now) diagram.old.nodes held.now }
    requires outputs { AreOutputNumbers (comparison compared.now) compared.now.graph
        diagram.old.nodes outputs.items }
    ensures grows { GrowsBy (comparison compared.now) diagram.old diagram.new }
    ensures numbers { IfOk result (λ wanted. AreNumbersOf (comparison compared.now)
        diagram.new.nodes wanted.items (wanted_ports (comparison compared.now))) }
    ensures refused { IfErr result (IsVerifyFault (comparison compared.now) diagram.new.limit) }
{
    let _ = compared.variables(); // shows what is known of both
    match compared.placing() {
        Placing::Added(_) => {
            let (input, _) = bits.split_at(compared.inputs() as usize);
            let added = number_added(alloc, diagram, compared, held, &outputs)?;
            Ok(joined(alloc, input, &added)?)
        }
        Placing::InPlace => Ok(outputs),
    }
}

// The numbers of the input lines and the output lines, where the variables have theirs.
pub fn port_numbers(
    alloc: Global,
    diagram: &mut Diagram,
    compared: &Compared,
    bits: &[Dd],
) -> Result<Ports, VerifyFault>
    requires holds { HoldsLines (comparison compared.now) diagram.old }
    requires bits { AreVariableNumbers (comparison compared.now) diagram.old.nodes bits.now }
    ensures grows { GrowsBy (comparison compared.now) diagram.old diagram.new }
    ensures first { IfOk result (λ ports. AreNumbersOf (comparison compared.now)
        diagram.new.nodes ports.first.items (first_ports (comparison compared.now))) }
    ensures wanted { IfOk result (λ ports. AreNumbersOf (comparison compared.now)
        diagram.new.nodes ports.wanted.items (wanted_ports (comparison compared.now))) }
    ensures refused { IfErr result (IsVerifyFault (comparison compared.now) diagram.new.limit) }
{
    let _ = compared.variables(); // shows what is known of both
    let outputs = number_outputs(alloc, diagram, compared, compared.graph, bits)?;
    let held = number_held(alloc, diagram, compared, bits)?;
    let (input, _) = bits.split_at(compared.inputs() as usize);
    let first = joined(alloc, input, &held)?;
    let wanted = number_wanted(alloc, diagram, compared, bits, &held, outputs)?;
    Ok(Ports { first, wanted })
}
