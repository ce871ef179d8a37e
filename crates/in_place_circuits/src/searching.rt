// What is searched: a graph of the outputs of a tape and of the bits that its claims are on.
ghost use Rattle.std.specs.Prelude.{◌≤◌, length, sum, IfOk};
ghost use Rattle.std.specs.List.{AllByRecursion};
ghost use Rattle.revs_tape.specs.Tapes.{IsKnown};
ghost use Rattle.revs_tape.specs.declared.limits.TheConstants.{MOST_OUTPUTS};

use claim_assumptions::bare;
use claim_check::Settled;
use dependency_graph::Graph;
use few_products::few_products;
use in_place_plans::{Flip, Pace, plan, plan_tape};
use plan_tools::{Limits, Stop};
use revc_base::Memory;
use revs_tape::limits::MOST_OUTPUTS;
use revs_tape::{Kind, Ref, Tape};
use single_products::single_products;
use std::alloc::Global;
use sum_graph::SumGraph;

/// The most bits of a sum that is no node of the graph.
const SHORT_BITS: usize = 4;

/// A tape of at most so many writes is searched in each way; on longer ones the graphs take a minute.
const MOST_SHORT: usize = 4_096;

/// What may be gates of a circuit in place: by a search over the writes of a tape, where its unused
/// bits tell something, and by searches over graphs, unless the first found gates of a long tape.
/// Nothing is promised of the gates.
pub fn search(alloc: Global, tape: &Tape, limits: Limits) -> Result<Vec<Vec<Flip>>, Memory>
    requires some { 1 ≤ length tape.now.outputs }
{
    let mut found = Vec::new(alloc);
    if let Some(flips) = found_in(plan_tape(alloc, tape, limits))? {
        found.push(flips)?;
    }
    if found.is_empty() || tape.entries().len() <= MOST_SHORT {
        search_graphs(alloc, tape, limits, &mut found)?;
    }
    Ok(found)
}

// Appends what searches find over the graph of the tape and over one with fewer products. Each fact
// is a claim: its bit is the claimed one on the inputs that are looked at.
fn search_graphs(
    alloc: Global,
    tape: &Tape,
    limits: Limits,
    found: &mut Vec<Vec<Flip>>,
) -> Result<(), Memory>
    requires some { 1 ≤ length tape.now.outputs }
{
    let facts = claimed_bits(tape)?;
    let lean = graph_of(alloc, tape)?;
    let sought = Sought {
        outputs: tape.outputs().len(),
        facts: &facts,
        limits,
    };
    sought.push_all(alloc, &lean, found)?;
    if let Some(fewer) = few_products(alloc, &lean)? {
        sought.push_all(alloc, &fewer, found)?;
    }
    Ok(())
}

// The bit that each claim claims.
fn claimed_bits(tape: &Tape) -> Result<Vec<bool>, Memory> {
    let mut bits = Vec::new(*tape.allocator());
    for claim in tape.claims() {
        bits.push(claim.kind == Kind::Assert)?;
    }
    Ok(bits)
}

// The lean graph of the outputs of a tape and, behind these, of the bits of its claims.
fn graph_of(alloc: Global, tape: &Tape) -> Result<SumGraph, Memory>
    requires { 1 ≤ length tape.now.outputs }
{
    let mut wider = bare(tape)?;
    wider.set_outputs(outputs_and_claims(tape)?);
    let graph = Graph::of(&wider)?;
    let settled = Settled::of(&graph, &wider)?;
    SumGraph::lean(alloc, &settled, SHORT_BITS)
}

// The outputs of a tape, and then the bits of its claims, as many as a tape may have.
fn outputs_and_claims(tape: &Tape) -> Result<Vec<Ref>, Memory>
    requires { 1 ≤ length tape.now.outputs }
    ensures known { IfOk result (λ all. AllByRecursion
        (IsKnown (sum tape.now.params) (length tape.now.entries)) all.items) }
    ensures some { IfOk result (λ all. 1 ≤ length all.items) }
    ensures few { IfOk result (λ all. length all.items ≤ MOST_OUTPUTS) }
{
    let mut all = tape.outputs().to_vec(*tape.allocator())?;
    for claim in tape.claims() {
        if all.len() < MOST_OUTPUTS {
            all.push(claim.of)?;
        }
    }
    Ok(all)
}

// What is sought of a graph: how many of its outputs are in place, what the others are, and within
// which limits.
#[derive(Clone, Copy)]
struct Sought<'f> {
    outputs: usize,
    facts: &'f [bool],
    limits: Limits,
}

impl Sought<'_> {
    // Appends the gates that searches over the graph of single products find.
    fn push_all(
        &self,
        alloc: Global,
        sums: &SumGraph,
        found: &mut Vec<Vec<Flip>>,
    ) -> Result<(), Memory> {
        let Some(single) = single_products(alloc, sums)? else {
            return Ok(());
        };
        for pace in [Pace::Often, Pace::Seldom] {
            let planned = plan(alloc, &single, self.outputs, self.facts, self.limits, pace);
            if let Some(flips) = found_in(planned.map(Some))? {
                found.push(flips)?;
            }
        }
        Ok(())
    }
}

// The gates of a search, where it finds any.
fn found_in(planned: Result<Option<Vec<Flip>>, Stop>) -> Result<Option<Vec<Flip>>, Memory> {
    match planned {
        Ok(flips) => Ok(flips),
        Err(Stop::GaveUp) => Ok(None),
        Err(Stop::Memory(memory)) => Err(memory),
    }
}
