// From a tape to its settled graph.
ghost use Rattle.std.specs.Prelude.{◌≡◌, ◌+◌, ◌<◌, ◌≤◌, length, slice_get, IfOk, IfErr};
ghost use Rattle.std.specs.Prelude.{IfSome};
ghost use Rattle.claim_assumptions.specs.Settling.{IsAssumptionFault};
ghost use Rattle.claim_check.specs.Measures.{IsNoLarger};
ghost use Rattle.claim_check.specs.Settled.{IsSettledOf};
ghost use Rattle.program_texts.specs.Outcomes.{IsSettlingFault};
ghost use Rattle.program_texts.specs.Settling.{ForTexts, IsSettledWithin};
ghost use Rattle.revs_terms.specs.declared.limits.TheConstants.{MOST_RUN_WRITES};

use claim_assumptions::{AssumptionFault, settle_assuming};
use claim_check::Settled;
use command_answers::Fault;
use dependency_graph::Graph;
use revc_base::{Bits, Memory, Place};
use revs_tape::Tape;

/// The settled graph of a tape, whose claims hold on the inputs that meet the first so many. A
/// fault is exactly what stops each text that leaves the tape, or want of memory.
pub fn settle_tape(tape: &Tape, assumed: u32, nodes: u32) -> Result<Settled, Fault>
    requires some { 1 ≤ nodes }
    requires few { length tape.now.entries ≤ MOST_RUN_WRITES }
    ensures ok { IfOk result (IsSettledWithin tape.now assumed nodes) }
    ensures err { IfErr result
        (λ fault. ForTexts tape.now (λ text. IsSettlingFault text assumed nodes fault)) }
{
    match settle_assuming(tape, assumed, nodes) {
        Ok(()) => Ok(settled_graph(tape)?),
        Err(fault) => Err(settling_fault(tape, fault, assumed, nodes)),
    }
}

// The settled graph of a tape.
fn settled_graph(tape: &Tape) -> Result<Settled, Memory>
    ensures of_tape { IfOk result (IsSettledOf tape.now) }
    ensures no_larger { IfOk result (IsNoLarger tape.now) }
{
    let graph = Graph::of(tape)?;
    Settled::of(&graph, tape)
}

// The fault of the program for a fault of its claims.
fn settling_fault(tape: &Tape, fault: AssumptionFault, assumed: u32, nodes: u32) -> Fault
    requires { IsAssumptionFault tape.now assumed nodes fault }
    ensures { ForTexts tape.now (λ text. IsSettlingFault text assumed nodes result) }
{
    match fault {
        AssumptionFault::NoInput => Fault::NoInput,
        AssumptionFault::Broken { claim, input } => broken_claim(tape, claim, input),
        AssumptionFault::Diagram { claim, .. } => {
            let (number, at) = counted(tape, claim);
            Fault::Diagram {
                number,
                at,
                limit: nodes,
            }
        }
        AssumptionFault::Memory(memory) => Fault::Memory(memory),
    }
}

/// The fault of a claim, counted from 0, that fails on these bits.
pub fn broken_claim(tape: &Tape, claim: u32, bits: Bits) -> Fault
    requires { claim < length tape.now.claims }
    ensures { IfSome (slice_get tape.now.claims claim)
        (λ c. result ≡ Fault.Claim (claim + 1) c.at bits) }
{
    let (number, at) = counted(tape, claim);
    Fault::Claim { number, at, bits }
}

// The number of a claim, counted from 1, and its place.
fn counted(tape: &Tape, claim: u32) -> (u32, Place)
    requires { claim < length tape.now.claims }
    ensures number { result.0 ≡ claim + 1 }
    ensures place { IfSome (slice_get tape.now.claims claim) (λ c. result.1 ≡ c.at) }
{
    let at = tape.claims()[claim as usize].at;
    (claim + 1, at)
}
