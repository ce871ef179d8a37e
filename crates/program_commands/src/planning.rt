// From a tape to the plan of a clean circuit.
ghost use Rattle.std.specs.Prelude.{◌≡◌, ◌≤◌, length, IfOk, IfErr};
ghost use Rattle.revc_words.specs.Words.{IsWithinLimits, order_of};
ghost use Rattle.program_commands.specs.Compile.{budget_of};
ghost use Rattle.program_commands.specs.Outcomes.{IsCompileFault};
ghost use Rattle.program_commands.specs.inside.Mappings.{plan_fault};
ghost use Rattle.program_commands.specs.inside.Plans.{IsPlanOf, IsPlannedFor};
ghost use Rattle.program_texts.specs.Settling.{ForTexts};
ghost use Rattle.revs_terms.specs.declared.limits.TheConstants.{MOST_RUN_WRITES};
ghost use Rattle.program_commands.specs.inside.Plans.{IsPlanningFault};

use circuit_plans::{Budget, Laid, PlanFault};
use claim_check::Settled;
use command_answers::Fault;
use plan_choice::choose;
use program_texts::settle_tape;
use revc_words::Order;
use revs_tape::Tape;
use std::alloc::Global;

/// The first plan of a tape that fits the budgets of an order, a clean circuit of each text that
/// leaves the tape, whose claims hold on the inputs that meet the first so many. A claim stops
/// exactly where it does, and that no input meets these exactly where none does; a budget is passed
/// only where no row of the budget numbers that the order allows fits; no other fault
/// comes but want of memory.
pub fn plan_tape(alloc: Global, tape: &Tape, order: &Order) -> Result<Laid, Fault>
    requires limits { IsWithinLimits (order_of order.now) }
    requires few { length tape.now.entries ≤ MOST_RUN_WRITES }
    ensures ok { IfOk result (λ laid. ForTexts tape.now
        (λ text. IsPlannedFor (order_of order.now) text tape.now laid)) }
    ensures err { IfErr result (λ fault. ForTexts tape.now
        (λ text. IsCompileFault (order_of order.now) text fault)) }
{
    let settled = settle_tape(tape, order.values.assume, order.values.nodes)?;
    lay(alloc, &settled, order)
}

// The first plan of a settled graph that fits the budgets of an order.
fn lay(alloc: Global, settled: &Settled, order: &Order) -> Result<Laid, Fault>
    requires { IsWithinLimits (order_of order.now) }
    ensures ok { IfOk result
        (IsPlanOf order.now.values.plan settled.now (budget_of (order_of order.now))) }
    ensures err { IfErr result
        (IsPlanningFault order.now.values.plan settled.now (budget_of (order_of order.now))) }
{
    let budget = Budget::new(order.values.lines, order.values.gates, order.values.borrow);
    match choose(alloc, settled, &budget, order.values.plan) {
        Ok(laid) => {
            // This call says that the gates are narrow, and on the circuit's lines.
            let _ = laid.circuit().lines();
            Ok(laid)
        }
        Err(fault) => Err(plan_fault(fault, order)),
    }
}

fn plan_fault(fault: PlanFault, order: &Order) -> Fault
    ensures { result ≡ plan_fault (budget_of (order_of order.now)) fault }
{
    match fault {
        PlanFault::Lines { need } => Fault::Lines {
            need,
            limit: order.values.lines,
        },
        PlanFault::Gates => Fault::Gates {
            limit: order.values.gates,
        },
        PlanFault::Memory(memory) => Fault::Memory(memory),
    }
}
