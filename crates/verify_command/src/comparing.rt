// A circuit that was read, compared with the settled graph of a program's tape.
ghost use Rattle.std.specs.Prelude.{◌≡◌, IfErr, OnOk};
ghost use Rattle.circuit_verify.specs.Compared.{IsReady, comparison};
ghost use Rattle.circuit_verify.specs.Verdicts.{IsVerified};
ghost use Rattle.claim_assumptions.specs.Assumptions.{premise};
ghost use Rattle.claim_check.specs.Settled.{IsSettledOf};
ghost use Rattle.revc_words.specs.Words.{IsWithinLimits, order_of};
ghost use Rattle.revs_tape.specs.Tapes.{IsTape};
ghost use Rattle.verify_command.specs.inside.Mappings.{AreCountable, IsCountable, IsNamedIn};
ghost use Rattle.verify_command.specs.inside.Mappings.{diagrams_fault, not_comparable_fault};
ghost use Rattle.verify_command.specs.inside.Mappings.{sums_fault, unverified_fault};
ghost use Rattle.verify_command.specs.inside.Stages.{IsComparingFault, comparison_with};

use crate::ways::{Unverified, compare_by_way};
use circuit_verify::{Compared, NotComparable, VerifyFault};
use claim_check::Settled;
use command_answers::Fault;
use mct_circuit::Circuit;
use revc_words::Order;
use revs_tape::Tape;
use std::alloc::Global;
use sum_verify::SumsFault;

/// Compares a circuit with a tape, whose settled graph is given, and that of the claims that the
/// order assumes, by the way of the order. A fault is exactly that of the comparison, or want of
/// memory, or that sums alone leave it unsettled.
pub fn compare(
    alloc: Global,
    tape: &Tape,
    graph: &Settled,
    assumed: &Settled,
    circuit: &Circuit,
    order: &Order,
) -> Result<(), Fault>
    requires settled { IsSettledOf tape.now graph.now }
    requires assumed { IsSettledOf (premise (order_of order.now).assume tape.now) assumed.now }
    requires limits { IsWithinLimits (order_of order.now) }
    ensures tape { IsTape tape.now }
    ensures ok { OnOk result (IsVerified
        (comparison_with (order_of order.now) tape.now circuit.now)) }
    ensures err { IfErr result (λ fault. IsComparingFault (order_of order.now) fault
        (comparison_with (order_of order.now) tape.now circuit.now)) }
{
    let values = order.values;
    let (placing, borrow) = (values.outputs, values.borrow);
    match Compared::of(graph, assumed, tape.params(), circuit, placing, borrow) {
        Ok(compared) => compare_ready(alloc, compared, order),
        Err(why) => Err(not_comparable_fault(circuit, why)),
    }
}

// Compares two that can be compared.
fn compare_ready(alloc: Global, compared: Compared<'_>, order: &Order) -> Result<(), Fault>
    requires ready { IsReady compared }
    requires limits { IsWithinLimits (order_of order.now) }
    ensures ok { OnOk result (IsVerified (comparison compared.entry)) }
    ensures err { IfErr result (λ fault.
        IsComparingFault (order_of order.now) fault (comparison compared.entry)) }
{
    match compare_by_way(alloc, compared, order) {
        Ok(()) => Ok(()),
        Err(why) => Err(unverified_fault(why)),
    }
}

// The fault of the command where the two cannot be compared.
fn not_comparable_fault(circuit: &Circuit, why: NotComparable) -> Fault
    requires { IsNamedIn circuit.now why }
    ensures { result ≡ not_comparable_fault circuit.now why }
{
    let lines = circuit.lines();
    // This call says that the gates can be counted.
    let _ = circuit.len();
    match why {
        NotComparable::Outputs { inputs, outputs } => Fault::FewOutputs { inputs, outputs },
        NotComparable::Lines { need } => Fault::FewLines { lines, need },
        NotComparable::Gate { gate } => Fault::WideGate { number: gate + 1 },
    }
}

// The fault of the command where the circuit is not verified.
fn unverified_fault(why: Unverified<'_>) -> Fault
    requires { AreCountable why }
    ensures { result ≡ unverified_fault why.entry }
{
    match why {
        Unverified::Diagrams(fault) => diagrams_fault(fault),
        Unverified::Sums(fault) => sums_fault(fault),
        Unverified::Both(_, fault) => diagrams_fault(fault),
    }
}

// The fault of the command where diagrams do not verify the circuit.
fn diagrams_fault(fault: VerifyFault) -> Fault
    requires { IsCountable fault }
    ensures { result ≡ diagrams_fault fault }
{
    match fault {
        VerifyFault::Diagram { nodes } => Fault::CircuitDiagram { limit: nodes },
        VerifyFault::Differs { line, bits } => Fault::Differs {
            line: line + 1,
            bits,
        },
        VerifyFault::Memory(memory) => Fault::Memory(memory),
    }
}

// The fault of the command where sums do not verify the circuit.
fn sums_fault(fault: SumsFault<'_>) -> Fault
    ensures { result ≡ sums_fault fault.entry }
{
    match fault {
        SumsFault::Unsettled(_) => Fault::Unsettled,
        SumsFault::Memory(memory) => Fault::Memory(memory),
    }
}
