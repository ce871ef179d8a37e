// Claims settled on the inputs on which the first hold.
ghost use Rattle.std.specs.Prelude.{◌≡◌, ◌≤◌, length, IfErr, IfOk, OnOk};
ghost use Rattle.claim_check.specs.Settled.{IsSettled, IsSettledOf};
ghost use Rattle.claim_assumptions.specs.Assumptions.{assumed_of, premise};
ghost use Rattle.claim_assumptions.specs.inside.Faults.{fault_behind};
ghost use Rattle.claim_assumptions.specs.Settling.{AssumesSome, CanBeMet, HasRoom};
ghost use Rattle.claim_assumptions.specs.Settling.{HoldAssuming, IsAssumptionFault};

use crate::AssumptionFault;
use crate::building::{assumed_claims, assuming_tape, premise_tape};
use claim_check::{ClaimFault, Settled, settle_claims};
use dependency_graph::Graph;
use revc_base::Memory;
use revs_tape::Tape;

/// The settled graph whose one output is the bit that the first so many claims are met, or all
/// where there are fewer.
pub fn premise(tape: &Tape, assumed: u32) -> Result<Settled, Memory>
    requires { HasRoom tape.now }
    ensures of_tape { IfOk result (IsSettledOf (premise assumed tape.now)) }
    ensures settled { IfOk result IsSettled }
{
    let made = premise_tape(tape, assumed)?;
    let graph = Graph::of(&made)?;
    Settled::of(&graph, &made)
}

/// Settles each claim of a tape on the inputs on which the first so many hold, or all where there
/// are fewer. These are taken for granted.
///
/// `limit` bounds the functions on which the assumed claims rest together, and those on which the
/// claims on such inputs do.
///
/// # Errors
///
/// `NoInput` where no input meets the assumed claims. Else `Broken` where a claim fails on some
/// input that does, `Diagram` where a claim passes the limit: the first of these in the order of
/// the claims.
pub fn settle_assuming(tape: &Tape, assumed: u32, limit: u32) -> Result<(), AssumptionFault>
    requires some { 1 ≤ limit }
    requires room { HasRoom tape.now }
    ensures hold { OnOk result (HoldAssuming tape.now assumed limit) }
    ensures refused { IfErr result (IsAssumptionFault tape.now assumed limit) }
{
    if assumed_claims(tape, assumed) == 0 {
        return settle_all(tape, assumed, limit);
    }
    meet(tape, assumed, limit)?;
    settle_behind(tape, assumed, limit)
}

// Whether some input meets the assumed claims.
fn meet(tape: &Tape, assumed: u32, limit: u32) -> Result<(), AssumptionFault>
    requires limit { 1 ≤ limit }
    requires room { HasRoom tape.now }
    requires some { AssumesSome tape.now assumed }
    ensures meets { OnOk result (CanBeMet tape.now assumed limit) }
    ensures refused { IfErr result (IsAssumptionFault tape.now assumed limit) }
{
    let made = premise_tape(tape, assumed)?;
    match settle_claims(&made, limit) {
        Ok(()) => Err(AssumptionFault::NoInput),
        Err(ClaimFault::Broken { .. }) => Ok(()),
        Err(ClaimFault::Diagram { nodes, .. }) => Err(AssumptionFault::Diagram {
            claim: assumed_claims(tape, assumed) as u32 - 1,
            nodes,
        }),
        Err(ClaimFault::Memory(memory)) => Err(AssumptionFault::Memory(memory)),
    }
}

// The fault of claims that are looked at on some inputs alone.
fn fault_behind(fault: ClaimFault) -> AssumptionFault
    ensures { result ≡ fault_behind fault }
{
    match fault {
        ClaimFault::Broken { claim, input } => AssumptionFault::Broken { claim, input },
        ClaimFault::Diagram { claim, nodes } => AssumptionFault::Diagram { claim, nodes },
        ClaimFault::Memory(memory) => AssumptionFault::Memory(memory),
    }
}

// Settles each claim on the inputs on which the assumed ones hold.
fn settle_behind(tape: &Tape, assumed: u32, limit: u32) -> Result<(), AssumptionFault>
    requires limit { 1 ≤ limit }
    requires room { HasRoom tape.now }
    requires some { AssumesSome tape.now assumed }
    requires meets { CanBeMet tape.now assumed limit }
    ensures hold { OnOk result (HoldAssuming tape.now assumed limit) }
    ensures refused { IfErr result (IsAssumptionFault tape.now assumed limit) }
{
    let made = assuming_tape(tape, assumed)?;
    match settle_claims(&made, limit) {
        Ok(()) => Ok(()),
        Err(fault) => Err(fault_behind(fault)),
    }
}

// Settles each claim on all inputs, where none is assumed.
fn settle_all(tape: &Tape, assumed: u32, limit: u32) -> Result<(), AssumptionFault>
    requires limit { 1 ≤ limit }
    requires none { length (assumed_of tape.now assumed) ≡ 0 }
    ensures hold { OnOk result (HoldAssuming tape.now assumed limit) }
    ensures refused { IfErr result (IsAssumptionFault tape.now assumed limit) }
{
    match settle_claims(tape, limit) {
        Ok(()) => Ok(()),
        Err(fault) => Err(fault_behind(fault)),
    }
}
