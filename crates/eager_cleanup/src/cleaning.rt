// The cleaning of the nodes that a node uses for the last time.
ghost use Rattle.std.specs.Prelude.{◌≡◌, ◌≢◌, ◌+◌, ◌<◌, [], ◌∷◌, length, true, if◌then◌else◌, IfOk};
ghost use Rattle.std.specs.Prelude.{IfErr};
ghost use Rattle.std.specs.List.{AllByRecursion};
ghost use Rattle.dependency_graph.specs.Graphs.{IsKnownBase, operands};
ghost use Rattle.eager_cleanup.specs.Eager.{IsEagerFault};
ghost use Rattle.eager_cleanup.specs.inside.Known.{AreFirstValues, IsKnownPolynomial, IsKnownValue};
ghost use Rattle.eager_cleanup.specs.inside.Sweeps.{CanClean, IsCleaned, IsCleaningFault, IsMade};
ghost use Rattle.eager_cleanup.specs.inside.Sweeps.{IsSwept, IsUsed, IsUseFault, are_ready};
ghost use Rattle.eager_cleanup.specs.inside.Sweeps.{is_earlier};
ghost use Rattle.held_nodes.specs.Held.{IsForward, is_held};
ghost use Rattle.claim_check.specs.Settled.{IsSettled};
ghost use Rattle.sum_graph.specs.Plain.{plain_of};

use claim_check::Settled;
use dependency_graph::{Base, Node};
use exclusive_sums::{Poly, merge};
use held_nodes::{Forward, Moved};
use std::alloc::Global;

// What a cleaning goes by: the settled graph, the values that are known, and the node that was made
// last, `user`.
#[derive(Clone, Copy)]
pub struct Cleaning<'s> {
    pub alloc: Global,
    pub graph: &'s Settled,
    pub known: &'s [Option<Poly>],
    pub user: u32,
}

// Cleans the nodes that node `user` uses for the last time, the later one first.
pub fn clean_operands<'s>(by: Cleaning, forward: Forward<'s>) -> Moved<'s>
    requires values { AreFirstValues by.graph.now by.user by.known.now }
    requires made { IsMade by.graph.now forward.budget by.user forward }
    ensures swept { IfOk result
        (IsSwept by.entry.graph.now forward.entry.budget (by.entry.user + 1) []) }
    ensures refused { IfErr result (IsEagerFault by.entry.graph.now forward.entry.budget) }
{
    match by.graph.node(by.user) {
        Node::Not(a) => clean_used(by, forward, a),
        Node::Xor(a, b) => clean_both(by, forward, a, b),
        Node::And(a, b) => clean_both(by, forward, a, b),
    }
}

// Cleans two operands of a node where it uses them for the last time, the later one first.
fn clean_both<'s>(by: Cleaning, forward: Forward<'s>, a: Base, b: Base) -> Moved<'s>
    requires values { AreFirstValues by.graph.now by.user by.known.now }
    requires can { CanClean by.graph.now forward.budget by.user (a ∷ b ∷ []) forward }
    ensures swept { IfOk result
        (IsSwept by.entry.graph.now forward.entry.budget (by.entry.user + 1) []) }
    ensures refused { IfErr result (IsEagerFault by.entry.graph.now forward.entry.budget) }
{
    let (first, second) = later_first(a, b);
    let forward = clean_used(by, forward, first)?;
    clean_used(by, forward, second)
}

// Two bases, the later node first.
fn later_first(a: Base, b: Base) -> (Base, Base)
    ensures first { result.0 ≡ if is_earlier a b then b else a }
    ensures second { result.1 ≡ if is_earlier a b then a else b }
{
    if is_earlier(a, b) { (b, a) } else { (a, b) }
}

// Whether it is a node before another one.
fn is_earlier(a: Base, b: Base) -> bool
    ensures { result ≡ is_earlier a b }
{
    match (a, b) {
        (Base::Node(a), Base::Node(b)) => a < b,
        _ => false,
    }
}

// Cleans a base where it is a node that is held, and that node `user` uses for the last time.
fn clean_used<'s>(by: Cleaning, forward: Forward<'s>, base: Base) -> Moved<'s>
    requires values { AreFirstValues by.graph.now by.user by.known.now }
    requires settled { IsSettled by.graph.now }
    requires graph { forward.graph ≡ plain_of by.graph.now }
    requires inside { by.user < length by.graph.now.nodes }
    requires base { IsKnownBase by.graph.now.inputs by.user base }
    ensures ok { IfOk result
        (IsUsed by.entry.graph.now by.entry.known.now by.entry.user base forward.entry) }
    ensures refused { IfErr result
        (IsUseFault by.entry.graph.now by.entry.known.now by.entry.user base forward.entry) }
{
    let Base::Node(k) = base else {
        return Ok(forward);
    };
    if by.graph.last_use(k) != by.user || !forward.held(k) {
        return Ok(forward);
    }
    clean(by.alloc, forward, by.graph, k, &by.known[k as usize])
}

// Cleans a held node: by its operands where each is an input or held, else by its value where that
// is known.
fn clean<'s>(
    alloc: Global,
    forward: Forward<'s>,
    graph: &Settled,
    k: u32,
    value: &Option<Poly>,
) -> Moved<'s>
    requires inside { k < length graph.now.nodes }
    requires value { IsKnownValue graph.now k value.now }
    requires settled { IsSettled graph.now }
    requires graph { forward.graph ≡ plain_of graph.now }
    requires keeps { IsForward forward }
    requires held { is_held forward.lines k ≡ true }
    ensures ok { IfOk result (IsCleaned value.now forward.entry k) }
    ensures refused { IfErr result (IsCleaningFault value.now forward.entry k) }
{
    if are_ready(&forward, graph.node(k)) {
        return forward.toggle(k);
    }
    match value {
        Some(poly) => clear(alloc, forward, graph, k, poly),
        None => Ok(forward),
    }
}

// Cleans a held node by the merged cubes of its polynomial.
fn clear<'s>(alloc: Global, forward: Forward<'s>, graph: &Settled, k: u32, poly: &Poly) -> Moved<'s>
    requires value { IsKnownPolynomial graph.now k poly.now }
    requires graph { forward.graph ≡ plain_of graph.now }
    requires keeps { IsForward forward }
    requires held { is_held forward.lines k ≡ true }
    ensures ok { IfOk result (IsCleaned (Some poly.now) forward.entry k) }
    ensures refused { IfErr result (IsCleaningFault (Some poly.now) forward.entry k) }
{
    let cubes = merge(alloc, poly)?;
    forward.clear(k, &cubes)
}

// Whether each operand is an input or a node that is held.
fn are_ready(forward: &Forward, node: Node) -> bool
    requires { AllByRecursion (IsKnownBase forward.now.graph.inputs
        (length forward.now.graph.nodes)) (operands node) }
    ensures ready { result ≡ are_ready forward.now.lines node }
{
    match node {
        Node::Not(a) => forward.is_ready(a),
        Node::Xor(a, b) => forward.is_ready(a) && forward.is_ready(b),
        Node::And(a, b) => forward.is_ready(a) && forward.is_ready(b),
    }
}
