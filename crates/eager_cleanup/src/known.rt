// Known values: the polynomials of the nodes over the inputs.
ghost use Rattle.std.specs.Prelude.{◌≡◌, ◌+◌, ◌<◌, length, Some, None, OnOk, IfOk, IfSome, IsNone};
ghost use Rattle.std.specs.List.{AllByRecursion};
ghost use Rattle.claim_check.specs.Settled.{IsSettled};
ghost use Rattle.dependency_graph.specs.Graphs.{IsKnownBase, operands};
ghost use Rattle.eager_cleanup.specs.inside.Known.{AreFirstValues, AreInputValues, IsValueOf};
ghost use Rattle.eager_cleanup.specs.inside.Known.{base_value};

use claim_check::Settled;
use dependency_graph::{Base, Node};
use exclusive_sums::Poly;
use revc_base::Memory;
use std::alloc::Global;

// Appends the value of the next node: its polynomial, where each operand is an input or known and
// the polynomial has at most 64 monomials. The values that no later node needs are dropped.
pub fn add_value(
    known: &mut Vec<Option<Poly>>,
    inputs: &[Poly],
    graph: &Settled,
    k: u32,
) -> Result<(), Memory>
    requires settled { IsSettled graph.now }
    requires inputs { AreInputValues inputs.now }
    requires count { length inputs.now ≡ graph.now.inputs }
    requires inside { k < length graph.now.nodes }
    requires values { AreFirstValues graph.now k known.old.items }
    ensures { OnOk result (AreFirstValues graph.now (k + 1) known.new.items) }
{
    let node = graph.node(k);
    let value = node_value(inputs, known, node)?;
    known.push(value)?;
    drop_used(known, graph, node, k);
    Ok(())
}

// Drops the values of the operands that their node uses for the last time.
fn drop_used(known: &mut [Option<Poly>], graph: &Settled, node: Node, user: u32)
    requires inside { user < length graph.now.nodes }
    requires operands { AllByRecursion (IsKnownBase graph.now.inputs user) (operands node) }
    requires values { AreFirstValues graph.now (user + 1) known.old }
    ensures { AreFirstValues graph.now (user + 1) known.new }
{
    match node {
        Node::Not(a) => drop_last(known, graph, a, user),
        Node::Xor(a, b) | Node::And(a, b) => {
            drop_last(known, graph, a, user);
            drop_last(known, graph, b, user);
        }
    }
}

// Drops the value of a base where it is a node that node `user` uses for the last time.
fn drop_last(known: &mut [Option<Poly>], graph: &Settled, base: Base, user: u32)
    requires inside { user < length graph.now.nodes }
    requires base { IsKnownBase graph.now.inputs user base }
    requires values { AreFirstValues graph.now (user + 1) known.old }
    ensures { AreFirstValues graph.now (user + 1) known.new }
{
    let Base::Node(k) = base else {
        return;
    };
    if graph.last_use(k) == user {
        known[k as usize] = None;
    }
}

// The polynomial of each input, in order.
pub fn input_values(alloc: Global, count: u32) -> Result<Vec<Poly>, Memory>
    ensures count { IfOk result (λ inputs. length inputs.items ≡ count) }
    ensures values { IfOk result (λ inputs. AreInputValues inputs.items) }
{
    let mut inputs = Vec::new(alloc);
    for input in 0..count {
        inputs.push(Poly::input(alloc, input)?)?;
    }
    Ok(inputs)
}

// The value of a node, by those of its operands.
fn node_value(inputs: &[Poly], known: &[Option<Poly>], node: Node) -> Result<Option<Poly>, Memory>
    requires { AllByRecursion (IsKnownBase (length inputs.now) (length known.now)) (operands node) }
    ensures { IfOk result (IsValueOf inputs.now known.now node) }
{
    match node {
        Node::Not(a) => match base_value(inputs, known, a) {
            Some(a) => a.not(),
            None => Ok(None),
        },
        Node::Xor(a, b) => match (base_value(inputs, known, a), base_value(inputs, known, b)) {
            (Some(a), Some(b)) => a.xor(b),
            _ => Ok(None),
        },
        Node::And(a, b) => match (base_value(inputs, known, a), base_value(inputs, known, b)) {
            (Some(a), Some(b)) => a.and(b),
            _ => Ok(None),
        },
    }
}

// The value of a base, where it is known.
fn base_value<'p>(inputs: &'p [Poly], known: &'p [Option<Poly>], base: Base) -> Option<&'p Poly>
    requires { IsKnownBase (length inputs.now) (length known.now) base }
    ensures some { IfSome result (λ value.
        base_value inputs.now known.now base ≡ Some value.now) }
    ensures none { IsNone result → base_value inputs.now known.now base ≡ None }
{
    match base {
        Base::Input(i) => Some(&inputs[i as usize]),
        Base::Node(k) => known[k as usize].as_ref(),
    }
}
