// The numbers of the lines, gate by gate.
ghost use Rattle.std.specs.Prelude.{◌≡◌, ◌++◌, ◌<◌, length, IfErr, IfOk};
ghost use Rattle.std.specs.Prelude.{OnOk, IsErrOf};
ghost use Rattle.std.specs.List.{AllByRecursion};
ghost use Rattle.decision_diagram.specs.Growth.{Computes};
ghost use Rattle.mct_circuit.specs.declared.gate.Op.TheVariants.{Flip};
ghost use Rattle.mct_circuit.specs.Gates.{IsGateOn, IsNarrow, line_map};
ghost use Rattle.circuit_verify.specs.Comparisons.{start_on};
ghost use Rattle.circuit_verify.specs.Verdicts.{IsVerifyFault};
ghost use Rattle.circuit_verify.specs.Compared.{comparison};
ghost use Rattle.circuit_verify.specs.inside.Numbers.{AreVariableNumbers};
ghost use Rattle.circuit_verify.specs.inside.Numbers.{AreEnds, AreKnown, AreLaid};
ghost use Rattle.circuit_verify.specs.inside.Numbers.{AreNumbersOf, GrowsBy};
ghost use Rattle.circuit_verify.specs.inside.Numbers.{HoldsLines, control_numbers};
ghost use Rattle.circuit_verify.specs.inside.Numbers.{line_function_of};

use crate::VerifyFault;
use crate::compared::Compared;
use crate::gates::target_of;
use crate::outputs::port_numbers;
use decision_diagram::{Dd, DdFault, Diagram};
use mct_circuit::{Control, Gate};
use std::alloc::{AllocError, Global};

// The numbers of the lines behind all gates, and those that they should have.
#[derive(Drop)]
pub struct Ends {
    pub now: Vec<Dd>,
    pub want: Vec<Dd>,
}

// The numbers of all lines, where the variables, the input lines and the output lines have theirs.
fn laid(
    alloc: Global,
    diagram: &Diagram,
    compared: &Compared,
    bits: &[Dd],
    ports: &[Dd],
) -> Result<Vec<Dd>, AllocError>
    requires { AreVariableNumbers (comparison compared.now) diagram.now.nodes bits.now }
    ensures { IfOk result (λ lines. AreLaid (comparison compared.now) diagram.now.nodes
        ports.now lines.items) }
{
    let _ = compared.variables(); // shows what is known of both
    let (_, behind) = bits.split_at(compared.inputs() as usize);
    let (_, borrowed) = behind.split_at(compared.output_variables() as usize);
    let never = diagram.truth(false);
    let idle = vec![in alloc; never; compared.work() as usize]?;
    all_lines(alloc, ports, &idle, borrowed)
}

// Three lists of numbers, one behind another.
fn all_lines(
    alloc: Global,
    ports: &[Dd],
    work: &[Dd],
    borrowed: &[Dd],
) -> Result<Vec<Dd>, AllocError>
    ensures { IfOk result (λ lines. lines.items
        ≡ ports.now ++ (work.now ++ borrowed.now)) }
{
    let mut lines = Vec::new(alloc);
    lines.extend_from_slice(ports)?;
    lines.extend_from_slice(work)?;
    lines.extend_from_slice(borrowed)?;
    Ok(lines)
}

// The numbers of the controls of a narrow gate, each `always` where there is none.
fn control_numbers(lines: &[Dd], always: Dd, controls: &[Control]) -> (Dd, Dd)
    requires { AllByRecursion (λ control. control.line < length lines.now) controls.now }
    ensures { result ≡ control_numbers lines.now always controls.now }
{
    match controls {
        [] => (always, always),
        [first] => (lines[first.line as usize], always),
        [first, second, ..] => (lines[first.line as usize], lines[second.line as usize]),
    }
}

// The number of the line that a narrow gate flips, behind the gate.
fn flipped_line(
    diagram: &mut Diagram,
    lines: &[Dd],
    gate: &Gate,
    target: u32,
) -> Result<Dd, DdFault>
    requires lines { AreKnown diagram.old.nodes lines.now }
    requires narrow { IsNarrow gate.now }
    requires placed { IsGateOn (length lines.now) gate.now }
    requires target { gate.now.op ≡ Flip target }
    ensures { Computes (line_function_of diagram.old.nodes lines.now gate.now target) diagram.old
        diagram.new result }
{
    let always = diagram.truth(true);
    let (left, right) = control_numbers(lines, always, gate.controls());
    diagram.flip(lines[target as usize], left, right)
}

// Takes the numbers of the lines through all gates. Memory is wanted only where there is room for a
// node more.
fn walk(diagram: &mut Diagram, compared: &Compared, lines: &mut [Dd]) -> Result<(), VerifyFault>
    requires holds { HoldsLines (comparison compared.now) diagram.old }
    requires start { AreNumbersOf (comparison compared.now) diagram.old.nodes lines.old
        (start_on (comparison compared.now)) }
    ensures grows { GrowsBy (comparison compared.now) diagram.old diagram.new }
    ensures ends { OnOk result (AreNumbersOf (comparison compared.now) diagram.new.nodes lines.new
        (λ bits. line_map compared.now.circuit.gates (start_on (comparison compared.now) bits))) }
    ensures refused { IfErr result (IsVerifyFault (comparison compared.now) diagram.new.limit) }
    ensures memory { IsErrOf result (VerifyFault.Memory _)
        → length diagram.new.nodes < diagram.new.limit }
{
    let _ = compared.variables(); // shows what is known of both
    for gate in compared.circuit.gates() {
        let target = target_of(gate);
        lines[target as usize] = flipped_line(diagram, lines, gate, target)?;
    }
    Ok(())
}

// The numbers of the lines behind all gates, and those that they should have.
pub fn ends_of(
    alloc: Global,
    diagram: &mut Diagram,
    compared: &Compared,
    bits: &[Dd],
) -> Result<Ends, VerifyFault>
    requires holds { HoldsLines (comparison compared.now) diagram.old }
    requires bits { AreVariableNumbers (comparison compared.now) diagram.old.nodes bits.now }
    ensures grows { GrowsBy (comparison compared.now) diagram.old diagram.new }
    ensures ends { IfOk result (λ ends. AreEnds (comparison compared.now) diagram.new.nodes
        ends.now.items ends.want.items) }
    ensures refused { IfErr result (IsVerifyFault (comparison compared.now) diagram.new.limit) }
{
    let _ = compared.variables(); // shows what is known of both
    let ports = port_numbers(alloc, diagram, compared, bits)?;
    let want = laid(alloc, diagram, compared, bits, &ports.wanted)?;
    let mut now = laid(alloc, diagram, compared, bits, &ports.first)?;
    walk(diagram, compared, &mut now)?;
    Ok(Ends { now, want })
}
