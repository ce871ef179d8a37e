// The copied graph of a settled graph.
ghost use Rattle.std.specs.Prelude.{◌≡◌, ◌*◌, ◌<◌, ◌≤◌, ◌++◌, [], length, map, IfOk, OnOk};
ghost use Rattle.std.specs.List.{AllByRecursion};
ghost use Rattle.revs_tape.specs.declared.limits.TheConstants.{MOST_WRITES};
ghost use Rattle.claim_check.specs.Settled.{IsSettled};
ghost use Rattle.sum_graph.specs.Plain.{plain_sum};
ghost use Rattle.copied_plans.specs.inside.Copied.{AreOperands, HasFewOperands, IsFewBase};
ghost use Rattle.copied_plans.specs.inside.Copied.{IsFewSig, copied_base, copied_nodes, copied_of};
ghost use Rattle.copied_plans.specs.inside.Copied.{copied_output, copied_sums, on_copies};

use bit_sums::{Product, Sum};
use claim_check::Settled;
use dependency_graph::{Base, Node, Sig};
use revc_base::Memory;
use std::alloc::Global;
use sum_graph::SumGraph;

/// The graph that has for each node two copies of its operands, and its value of these. In time
/// linear in the nodes and outputs.
pub fn copied_graph(alloc: Global, graph: &Settled) -> Result<SumGraph, Memory>
    requires { 3 * length graph.now.nodes ≤ MOST_WRITES }
    ensures copied { IfOk result (λ copied. copied ≡ copied_of graph.now) }
    ensures settled { OnOk result (IsSettled graph.now) }
{
    let nodes = copied_nodes(alloc, graph)?;
    let outputs = copied_outputs(alloc, graph.outputs())?;
    SumGraph::new(alloc, graph.inputs(), nodes, outputs)
}

// The three sums of each node, in their order.
fn copied_nodes(alloc: Global, graph: &Settled) -> Result<Vec<Sum>, Memory>
    requires { 3 * length graph.now.nodes ≤ MOST_WRITES }
    ensures { IfOk result (λ sums. sums.items ≡ copied_nodes 0 graph.now.nodes) }
{
    let mut sums = Vec::with_capacity(alloc, 3 * graph.nodes() as usize)?;
    for k in 0..graph.nodes() {
        push_copied(alloc, &mut sums, 3 * k, graph.node(k))?;
    }
    Ok(sums)
}

fn copied_outputs(alloc: Global, outputs: &[Sig]) -> Result<Vec<Sum>, Memory>
    requires { AllByRecursion IsFewSig outputs.now }
    ensures { IfOk result (λ sums. sums.items ≡ map copied_output outputs.now) }
{
    let mut sums = Vec::with_capacity(alloc, outputs.len())?;
    for sig in outputs {
        sums.push(copied_output(alloc, *sig)?)?;
    }
    Ok(sums)
}

// Appends the three sums of a node, the first of which is the node k.
fn push_copied(alloc: Global, sums: &mut Vec<Sum>, k: u32, node: Node) -> Result<(), Memory>
    requires few { HasFewOperands node }
    requires room { k < MOST_WRITES }
    ensures { OnOk result (sums.new.items ≡ sums.old.items ++ copied_sums k node) }
{
    let (first, second) = operands(node);
    sums.push(copied_output(alloc, first)?)?;
    sums.push(copied_output(alloc, second)?)?;
    sums.push(value_of(alloc, k, node)?)?;
    Ok(())
}

// What is copied of a node: a negation has one operand, and nothing.
fn operands(node: Node) -> (Sig, Sig)
    requires { HasFewOperands node }
    ensures { AreOperands node result.0 result.1 }
{
    match node {
        Node::Not(a) => (Sig::Is(a), Sig::Const(false)),
        Node::Xor(a, b) => (Sig::Is(a), Sig::Is(b)),
        Node::And(a, b) => (Sig::Is(a), Sig::Is(b)),
    }
}

// The operation of a node on its copies, which are the nodes k and k + 1.
fn value_of(alloc: Global, k: u32, node: Node) -> Result<Sum, Memory>
    requires { k < MOST_WRITES }
    ensures { IfOk result (λ sum. sum ≡ plain_sum (on_copies k node)) }
{
    let first = Base::Node(k);
    let second = Base::Node(k + 1);
    match node {
        Node::Not(_) => sum_of_bits(alloc, &[first], true),
        Node::Xor(_, _) => sum_of_bits(alloc, &[first, second], false),
        Node::And(_, _) => {
            let mut products = Vec::new(alloc);
            products.push(Product::of_bits(alloc, first, second)?)?;
            Ok(Sum::new(Vec::new(alloc), products, false))
        }
    }
}

fn copied_output(alloc: Global, sig: Sig) -> Result<Sum, Memory>
    requires { IsFewSig sig }
    ensures { IfOk result (λ sum. sum ≡ copied_output sig) }
{
    match sig {
        Sig::Const(bit) => sum_of_bits(alloc, &[], bit),
        Sig::Is(base) => sum_of_bits(alloc, &[copied_base(base)], false),
    }
}

// The base of the copied graph that has a base's value.
fn copied_base(base: Base) -> Base
    requires { IsFewBase base }
    ensures { result ≡ copied_base base }
{
    match base {
        Base::Input(i) => Base::Input(i),
        Base::Node(j) => Base::Node(3 * j + 2),
    }
}

fn sum_of_bits(alloc: Global, bits: &[Base], one: bool) -> Result<Sum, Memory>
    ensures { IfOk result (λ sum. sum
        ≡ record { bits = bits.now; products = []; one = one }) }
{
    let bits = Vec::from_slice(alloc, bits)?;
    Ok(Sum::new(bits, Vec::new(alloc), one))
}
