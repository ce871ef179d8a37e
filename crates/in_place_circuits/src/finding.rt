// Circuits that are found, verified.
ghost use Rattle.std.specs.Prelude.{◌≡◌, ◌⊎◌, ◌≤◌, length, IfOk, IfSome, IsTrue};
ghost use Rattle.circuit_verify.specs.Compared.{comparison};
ghost use Rattle.circuit_verify.specs.Verdicts.{IsVerified};
ghost use Rattle.claim_assumptions.specs.Assumptions.{premise};
ghost use Rattle.claim_assumptions.specs.Settling.{HasRoom};
ghost use Rattle.claim_check.specs.Settled.{IsSettledOf};
ghost use Rattle.in_place_circuits.specs.Found.{IsFound};

use crate::circuits::circuit_of;
use crate::searching::search;
use circuit_plans::{Budget, Laid, Narrow, Placing, Size};
use circuit_verify::{Compared, VerifyFault, verify as by_diagrams};
use claim_assumptions::premise;
use claim_check::Settled;
use in_place_plans::Flip;
use plan_tools::{Limits, NOWHERE};
use revc_base::Memory;
use revs_tape::Tape;
use std::alloc::Global;
use sum_verify::{SumsFault, Unsettled, verify as by_sums, verify_by_cuts, verify_by_wide_cuts};

/// The most nodes of diagrams that are made before cuts are asked.
const FEW_NODES: u32 = 1 << 16;

// What a circuit is to compute, on which inputs, within which budget, and of how many nodes the
// diagrams may be.
#[derive(Clone, Copy)]
struct Wanted<'t> {
    tape: &'t Tape,
    graph: &'t Settled,
    assumed: u32,
    premised: &'t Settled,
    budget: &'t Budget,
    nodes: u32,
}

/// A circuit within a budget that puts the outputs of a tape on the lines of its inputs and on the
/// lines behind these, on each input on which its first so many claims hold, if one is found. It is
/// verified by sums, with cuts too, or by diagrams of at most so many nodes. That none is found says
/// nothing.
pub fn find(
    alloc: Global,
    tape: &Tape,
    graph: &Settled,
    assumed: u32,
    budget: &Budget,
    nodes: u32,
) -> Result<Option<Laid>, Memory>
    requires of_tape { IsSettledOf tape.now graph.now }
    requires room { HasRoom tape.now }
    requires nodes { 1 ≤ nodes }
    ensures { IfOk result (λ found. IfSome found (IsFound tape.now assumed budget.now)) }
{
    if tape.outputs().is_empty() {
        return Ok(None);
    }
    let premised = premise(tape, assumed)?;
    let wanted = Wanted {
        tape,
        graph,
        assumed,
        premised: &premised,
        budget,
        nodes,
    };
    let all = search(alloc, tape, limits_of(budget))?;
    best_of(alloc, wanted, &all)
}

// The best of the circuits of some gates, of those that are within the budget and verified.
fn best_of(alloc: Global, wanted: Wanted<'_>, all: &[Vec<Flip>]) -> Result<Option<Laid>, Memory>
    requires of_tape { IsSettledOf wanted.tape.now wanted.graph.now }
    requires of_premise { IsSettledOf (premise wanted.assumed wanted.tape.now) wanted.premised.now }
    requires nodes { 1 ≤ wanted.nodes }
    ensures { IfOk result (λ found.
        IfSome found (IsFound wanted.entry.tape.now wanted.entry.assumed wanted.entry.budget.now)) }
{
    let mut best = None;
    for flips in all {
        let found = checked(alloc, wanted, flips)?;
        best = better(best, found);
    }
    Ok(best)
}

fn limits_of(budget: &Budget) -> Limits {
    Limits {
        lines: budget.lines(),
        gates: budget.gates(),
        borrow: budget.borrow(),
    }
}

// The better of two circuits, where there are two.
fn better(best: Option<Laid>, found: Option<Laid>) -> Option<Laid>
    ensures { (result ≡ best) ⊎ (result ≡ found) }
{
    match (best, found) {
        (Some(best), Some(found)) => Some(lesser(best, found)),
        (None, found) => found,
        (best, None) => best,
    }
}

fn lesser(best: Laid, found: Laid) -> Laid
    ensures { (result ≡ best) ⊎ (result ≡ found) }
{
    if Size::of(found.circuit()) < Size::of(best.circuit()) {
        found
    } else {
        best
    }
}

// The circuit of some gates, where it is within the budget and verified.
fn checked(alloc: Global, wanted: Wanted<'_>, flips: &[Flip]) -> Result<Option<Laid>, Memory>
    requires of_tape { IsSettledOf wanted.tape.now wanted.graph.now }
    requires of_premise { IsSettledOf (premise wanted.assumed wanted.tape.now) wanted.premised.now }
    requires nodes { 1 ≤ wanted.nodes }
    ensures { IfOk result (λ found.
        IfSome found (IsFound wanted.entry.tape.now wanted.entry.assumed wanted.entry.budget.now)) }
{
    let (graph, budget) = (wanted.graph, wanted.budget);
    let ports = graph.inputs().max(graph.outputs().len() as u32);
    let lines = lines_on(flips, ports).saturating_add(budget.borrow());
    if lines > budget.lines() {
        return Ok(None);
    }
    match circuit_of(alloc, lines, budget.gates(), flips)? {
        Some(narrow) => laid(alloc, wanted, narrow),
        None => Ok(None),
    }
}

// How many lines some gates take, and so many at least.
fn lines_on(flips: &[Flip], least: u32) -> u32 {
    let mut lines = least;
    for flip in flips {
        lines = lines
            .max(behind(flip.first))
            .max(behind(flip.second))
            .max(behind(flip.target));
    }
    lines
}

// The line behind one, and the first where there is none.
fn behind(line: u32) -> u32 {
    if line == NOWHERE {
        0
    } else {
        line.saturating_add(1)
    }
}

// A circuit as one in place, where it is verified.
fn laid(alloc: Global, wanted: Wanted<'_>, narrow: Narrow) -> Result<Option<Laid>, Memory>
    requires of_tape { IsSettledOf wanted.tape.now wanted.graph.now }
    requires of_premise { IsSettledOf (premise wanted.assumed wanted.tape.now) wanted.premised.now }
    requires nodes { 1 ≤ wanted.nodes }
    requires lines { narrow.lines ≤ wanted.budget.now.lines }
    requires gates { length narrow.gates ≤ wanted.budget.now.gates }
    ensures { IfOk result (λ found.
        IfSome found (IsFound wanted.entry.tape.now wanted.entry.assumed wanted.entry.budget.now)) }
{
    let (graph, premised, params) = (wanted.graph, wanted.premised, wanted.tape.params());
    let (circuit, borrow) = (narrow.circuit(), wanted.budget.borrow());
    let Ok(compared) = Compared::of(graph, premised, params, circuit, Placing::InPlace, borrow)
    else {
        return Ok(None);
    };
    let (inputs, outputs) = (compared.inputs(), compared.output_lines());
    let work = compared.work();
    if !is_verified(alloc, compared, wanted.nodes)? {
        return Ok(None);
    }
    Ok(Some(Laid::new(narrow, inputs, outputs, work, borrow)))
}

// Whether a circuit is verified: by sums, by diagrams of few nodes, by cuts, or by diagrams of so
// many nodes.
fn is_verified(alloc: Global, compared: Compared<'_>, nodes: u32) -> Result<bool, Memory>
    requires { 1 ≤ nodes }
    ensures { IfOk result (λ is. IsTrue is → IsVerified (comparison compared.entry)) }
{
    match by_sums(alloc, compared) {
        Ok(()) => Ok(true),
        Err(SumsFault::Unsettled(left)) => is_verified_further(alloc, left, nodes),
        Err(SumsFault::Memory(memory)) => Err(memory),
    }
}

// The same for what sums of products left unsettled.
fn is_verified_further(alloc: Global, left: Unsettled<'_>, nodes: u32) -> Result<bool, Memory>
    requires { 1 ≤ nodes }
    ensures { IfOk result (λ is. IsTrue is → IsVerified (comparison left.entry)) }
{
    match by_diagrams(alloc, left.compared(), nodes.min(FEW_NODES)) {
        Ok(()) => Ok(true),
        Err(VerifyFault::Diagram { nodes: _ }) => is_verified_by_cuts(alloc, left, nodes),
        Err(VerifyFault::Differs { line: _, bits: _ }) => Ok(false),
        Err(VerifyFault::Memory(memory)) => Err(memory),
    }
}

// The same where diagrams of few nodes do not tell.
fn is_verified_by_cuts(alloc: Global, left: Unsettled<'_>, nodes: u32) -> Result<bool, Memory>
    requires { 1 ≤ nodes }
    ensures { IfOk result (λ is. IsTrue is → IsVerified (comparison left.entry)) }
{
    let left = match verify_by_cuts(alloc, left) {
        Ok(()) => return Ok(true),
        Err(SumsFault::Unsettled(left)) => left,
        Err(SumsFault::Memory(memory)) => return Err(memory),
    };
    let left = match verify_by_wide_cuts(alloc, left) {
        Ok(()) => return Ok(true),
        Err(SumsFault::Unsettled(left)) => left,
        Err(SumsFault::Memory(memory)) => return Err(memory),
    };
    match by_diagrams(alloc, left.compared(), nodes) {
        Ok(()) => Ok(true),
        Err(VerifyFault::Memory(memory)) => Err(memory),
        Err(_) => Ok(false),
    }
}
