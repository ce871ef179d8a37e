// `ands`: how many ANDs the run of a program writes, and how many are enough.
ghost use Rattle.std.specs.Prelude.{◌≡◌, ◌^◌, ◌<◌, ◌≤◌, length, IfOk, IfErr};
ghost use Rattle.claim_check.specs.Measures.{IsNoLarger};
ghost use Rattle.claim_check.specs.Settled.{IsSettledOf};
ghost use Rattle.command_answers.specs.Outcomes.{HasOneOutcome};
ghost use Rattle.program_commands.specs.Ands.{AreCounted, AreCountsOf, HasOutputsOf};
ghost use Rattle.program_commands.specs.Ands.{ands_text, products_of, promise};
ghost use Rattle.program_texts.specs.Outcomes.{IsSettlingFault};
ghost use Rattle.revc_io.specs.Faults.{HasCause};
ghost use Rattle.revc_io.specs.Passing.{Writes};
ghost use Rattle.revs_tape.specs.Measures.{and_count, ands_of};
ghost use Rattle.sum_graph.specs.Graphs.{products_in};

use bit_sums::{MOST_FACTOR_BITS, Sum};
use claim_check::Settled;
use command_answers::{Fault, write_numbers};
use copied_plans::and_depth;
use few_products::few_products;
use program_texts::{settle_tape, tape_of_text};
use revc_base::Memory;
use revc_io::{Failed, Sink};
use revs_parser::MOST_BYTES;
use revs_tape::{Entry, Tape};
use std::alloc::Global;
use sum_graph::SumGraph;

/// What is counted of a program's ANDs.
#[derive(Clone, Copy)]
pub struct AndCounts {
    /// Those among the writes of its run.
    pub ands: u32,
    /// So many are enough: those of a graph of exclusive sums and ANDs that computes its outputs.
    pub left: u32,
    /// The most on a path through its settled graph.
    pub depth: u32,
}

/// What `ands` gives, its causes and where it serves exclude one another, and it has one cause at
/// most.
pub fn one_outcome()
    ensures { HasOneOutcome promise }
{}

/// The counts of a text's program, whose claims hold on the inputs that meet the first so many. A
/// fault is exactly the text's refusal, that no input meets these, or a claim that stops, or want
/// of memory.
pub fn count(alloc: Global, text: &[u8], assumed: u32, nodes: u32) -> Result<AndCounts, Fault>
    requires short { length text.now ≤ MOST_BYTES }
    requires nodes { 1 ≤ nodes }
    ensures ok { IfOk result (λ counts. AreCounted text.now assumed nodes (ands_text counts)) }
    ensures err { IfErr result (IsSettlingFault text.now assumed nodes) }
{
    let tape = tape_of_text(alloc, text)?;
    let graph = settle_tape(&tape, assumed, nodes)?;
    Ok(counts_of(alloc, &tape, &graph)?)
}

// The counts of a tape with its settled graph.
fn counts_of(alloc: Global, tape: &Tape, graph: &Settled) -> Result<AndCounts, Memory>
    requires of_tape { IsSettledOf tape.now graph.now }
    requires no_larger { IsNoLarger tape.now graph.now }
    ensures { IfOk result (AreCountsOf tape.now) }
{
    let depth = and_depth(alloc, graph)?;
    let sums = fewest_products(alloc, tape, graph)?;
    let ands = ands_of(tape);
    let left = products_of(&sums);
    Ok(AndCounts { ands, left, depth })
}

// The lean graph of a settled graph, or one with fewer products.
fn fewest_products(alloc: Global, tape: &Tape, graph: &Settled) -> Result<SumGraph, Memory>
    requires of_tape { IsSettledOf tape.now graph.now }
    requires no_larger { IsNoLarger tape.now graph.now }
    ensures outputs { IfOk result (HasOutputsOf tape.now) }
    ensures few { IfOk result (λ sums. products_of sums ≤ ands_of tape.now) }
{
    let lean = SumGraph::lean(alloc, graph, MOST_FACTOR_BITS)?;
    match few_products(alloc, &lean)? {
        Some(fewer) => Ok(fewer),
        None => Ok(lean),
    }
}

// How many writes are ANDs.
fn ands_of(tape: &Tape) -> u32
    ensures { result ≡ ands_of tape.now }
{
    let mut count: u32 = 0;
    for entry in tape.entries() {
        count += is_and(*entry);
    }
    count
}

fn is_and(entry: Entry) -> u32
    ensures { result ≡ and_count entry }
{
    match entry {
        Entry::Const(_) | Entry::Xor(..) => 0,
        Entry::And(..) => 1,
    }
}

// The products of all nodes and outputs.
fn products_of(graph: &SumGraph) -> u32
    requires { products_of graph.now < 2 ^ 32 }
    ensures { result ≡ products_of graph.now }
{
    let mut count: u32 = 0;
    for node in 0..graph.nodes() {
        count += graph.node(node).products().len() as u32;
    }
    count + products_in(graph.outputs())
}

fn products_in(sums: &[Sum]) -> u32
    requires { products_in sums.now < 2 ^ 32 }
    ensures { result ≡ products_in sums.now }
{
    let mut count: u32 = 0;
    for sum in sums {
        count += sum.products().len() as u32;
    }
    count
}

/// Writes the lines of the counts. It takes no memory.
pub fn write<K: Sink>(counts: &AndCounts, out: &mut K) -> Result<(), Failed>
    ensures bytes { Writes result (K.held out.old) (K.held out.new) (ands_text counts.now) }
    ensures cause { HasCause (K.faults out.old) (K.faults out.new) result }
{
    write_numbers(
        &[
            (b"ands ", counts.ands as u64),
            (b"left ", counts.left as u64),
            (b"depth ", counts.depth as u64),
        ],
        out,
    )
}
