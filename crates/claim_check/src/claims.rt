// Claims settled on all inputs, one after another.
ghost use Rattle.std.specs.Prelude.{◌≡◌, ◌≤◌, ◌<◌, ◌+◌, length, slice_get, IfErr, IfOk};
ghost use Rattle.std.specs.Prelude.{MatchOption, OnOk, Some, IsErrOf, ◌⊎◌};
ghost use Rattle.revs_tape.specs.Claims.{HoldsEverywhere, IsLeastBreaking};
ghost use Rattle.revs_tape.specs.Measures.{inputs_of};
ghost use Rattle.revs_tape.specs.Tapes.{IsTape, claimed};
ghost use Rattle.revs_tape.specs.VariableOrders.{variable_order};
ghost use Rattle.decision_diagram.specs.Diagrams.{IsNumber, function_of};
ghost use Rattle.decision_diagram.specs.Functions.{GivesOnly};
ghost use Rattle.claim_check.specs.Claims.{HoldWithin, IsClaimFault};
ghost use Rattle.claim_check.specs.inside.Labels.{claims_of};
ghost use Rattle.claim_check.specs.inside.Numbers.{AreMade, AreSettled, HasNumber, IsLeastOther};
ghost use Rattle.claim_check.specs.inside.Numbers.{IsScheduleOf, claim_fault};
ghost use Rattle.claim_check.specs.inside.Slots.{slots_of};
ghost use Rattle.claim_check.specs.Variables.{AreVariables};

use crate::ClaimFault;
use crate::assignments::bits_of;
use crate::numbers::{number_at, number_claim};
use crate::schedule::{Schedule, schedule_of};
use decision_diagram::{Dd, DdFault, Diagram};
use revc_base::{Bits, Memory};
use revs_tape::{Claim, Kind, Tape};
use std::alloc::Global;

// The bit that a claim claims.
fn claimed(kind: Kind) -> bool
    ensures { result ≡ claimed kind }
{
    match kind {
        Kind::Clean => false,
        Kind::Assert => true,
    }
}

// The fault of a claim whose diagrams are refused.
fn claim_fault(claim: u32, fault: DdFault) -> ClaimFault
    ensures { result ≡ claim_fault claim fault }
{
    match fault {
        DdFault::Full { nodes } => ClaimFault::Diagram { claim, nodes },
        DdFault::Memory(memory) => ClaimFault::Memory(memory),
    }
}

// The least input on which a function does not give a bit, where there is one.
fn least_other(
    alloc: Global,
    diagram: &Diagram,
    function: Dd,
    bit: bool,
    variables: &[u32],
) -> Result<Bits, Memory>
    requires number { IsNumber diagram.now.nodes function }
    requires other { GivesOnly (function_of diagram.now.nodes function) bit → ⊥ }
    requires variables { length variables.now ≡ diagram.now.vars }
    ensures { IfOk result
        (IsLeastOther (function_of diagram.now.nodes function) bit variables.now) }
{
    let mut assignment = vec![in alloc; false; variables.len()]?;
    let _ = diagram.least(function, !bit, &mut assignment); // there is one
    let input = bits_of(alloc, &assignment, variables)?;
    Ok(Bits::new(input))
}

// The least input that breaks a claim whose bit has its number, where there is one.
fn least_breaking(
    diagram: &Diagram,
    numbers: &[Dd],
    tape: &Tape,
    variables: &[u32],
    claim: Claim,
) -> Result<Option<Bits>, Memory>
    requires number { HasNumber tape.now diagram.now.nodes numbers.now claim.of }
    requires size { length numbers.now ≡ slots_of tape.now }
    requires vars { diagram.now.vars ≡ inputs_of tape.now }
    requires variables { AreVariables (inputs_of tape.now) (variable_order tape.now.params)
        variables.now }
    ensures { IfOk result (λ input.
        MatchOption input (HoldsEverywhere tape.now claim) (IsLeastBreaking tape.now claim)) }
{
    let function = number_at(tape, numbers, claim.of);
    let bit = claimed(claim.kind);
    if diagram.constant(function) == Some(bit) {
        return Ok(None);
    }
    let input = least_other(*tape.allocator(), diagram, function, bit, variables)?;
    Ok(Some(input))
}

// The claim with this number.
fn claim_at(tape: &Tape, number: u32) -> Claim
    requires { number < claims_of tape.now }
    ensures claim { slice_get tape.now.claims number ≡ Some result }
    ensures tape { IsTape tape.now }
{
    tape.claims()[number as usize]
}

// Settles a claim, after those before it. Memory is wanted where there is room for a number more,
// or behind the claim's own.
fn settle_claim(
    diagram: &mut Diagram,
    numbers: &mut [Dd],
    tape: &Tape,
    schedule: &Schedule,
    number: u32,
) -> Result<(), ClaimFault>
    requires schedule { IsScheduleOf tape.now schedule.now }
    requires claim { number < claims_of tape.now }
    requires settled { AreSettled tape.now schedule.now.labels.items diagram.old.limit number
        diagram.old numbers.old }
    ensures limit { diagram.new.limit ≡ diagram.old.limit }
    ensures settled { OnOk result (AreSettled tape.now schedule.now.labels.items
        diagram.old.limit (number + 1) diagram.new numbers.new) }
    ensures refused { IfErr result (IsClaimFault tape.now diagram.old.limit) }
    ensures memory { IsErrOf result (ClaimFault.Memory _)
        → (length diagram.new.nodes < diagram.new.limit)
        ⊎ AreMade tape.now schedule.now.labels.items (number + 1) 0 diagram.new.nodes
        numbers.new }
{
    let claim = claim_at(tape, number);
    if let Err(fault) = number_claim(diagram, numbers, tape, schedule, number) {
        return Err(claim_fault(number, fault));
    }
    match least_breaking(diagram, numbers, tape, &schedule.variables, claim)? {
        None => Ok(()),
        Some(input) => Err(ClaimFault::Broken {
            claim: number,
            input,
        }),
    }
}

// A table of numbers that are not made yet.
fn no_numbers(alloc: Global, diagram: &Diagram, count: usize) -> Result<Vec<Dd>, Memory>
    ensures { IfOk result (λ numbers. length numbers.items ≡ count) }
{
    Ok(vec![in alloc; diagram.truth(false); count]?)
}

/// Settles each claim of a tape for all inputs, in their order.
///
/// `limit` bounds the inner nodes of the diagrams, which are the functions on which the claims
/// rest, with their first variables fixed and without constants.
///
/// # Errors
///
/// `Broken` where a claim fails on some input, `Diagram` where a claim passes the limit: the first
/// of these in the order of the claims.
pub fn settle_claims(tape: &Tape, limit: u32) -> Result<(), ClaimFault>
    requires { 1 ≤ limit }
    ensures hold { OnOk result (HoldWithin tape.now limit) }
    ensures refused { IfErr result (IsClaimFault tape.now limit) }
{
    let schedule = schedule_of(tape)?;
    settle_by(tape, &schedule, limit)
}

// Settles each claim of a tape in a new diagram.
fn settle_by(tape: &Tape, schedule: &Schedule, limit: u32) -> Result<(), ClaimFault>
    requires schedule { IsScheduleOf tape.now schedule.now }
    requires some { 1 ≤ limit }
    ensures hold { OnOk result (HoldWithin tape.now limit) }
    ensures refused { IfErr result (IsClaimFault tape.now limit) }
{
    let alloc = *tape.allocator();
    let mut diagram = Diagram::new(alloc, tape.inputs(), limit)?;
    let mut numbers = no_numbers(alloc, &diagram, schedule.labels.len())?;
    settle_in_order(&mut diagram, &mut numbers, tape, schedule)
}

// Settles each claim of a tape, after none.
fn settle_in_order(
    diagram: &mut Diagram,
    numbers: &mut [Dd],
    tape: &Tape,
    schedule: &Schedule,
) -> Result<(), ClaimFault>
    requires schedule { IsScheduleOf tape.now schedule.now }
    requires settled { AreSettled tape.now schedule.now.labels.items diagram.old.limit 0 diagram.old
        numbers.old }
    ensures hold { OnOk result (HoldWithin tape.now diagram.old.limit) }
    ensures refused { IfErr result (IsClaimFault tape.now diagram.old.limit) }
{
    for number in 0..tape.claims().len() as u32 {
        settle_claim(diagram, numbers, tape, schedule, number)?;
    }
    Ok(())
}
