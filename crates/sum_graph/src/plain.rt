// Each node of a settled graph as its own sum.
ghost use Rattle.std.specs.Prelude.{◌≡◌, [], map, IfOk};
ghost use Rattle.sum_graph.specs.Plain.{plain_output, plain_sum};
ghost use Rattle.sum_graph.specs.inside.Operands.{AreTwo};

use bit_sums::{Product, Sum};
use claim_check::Settled;
use dependency_graph::{Base, Node, Sig};
use revc_base::Memory;
use std::alloc::Global;

/// The sum of each node, in their order.
pub fn plain_nodes(alloc: Global, graph: &Settled) -> Result<Vec<Sum>, Memory>
    ensures { IfOk result (λ nodes. nodes.items ≡ map plain_sum graph.now.nodes) }
{
    let mut nodes = Vec::with_capacity(alloc, graph.nodes() as usize)?;
    for k in 0..graph.nodes() {
        nodes.push(plain_sum(alloc, graph.node(k))?)?;
    }
    Ok(nodes)
}

/// The sum of each output, in their order.
pub fn plain_outputs(alloc: Global, outputs: &[Sig]) -> Result<Vec<Sum>, Memory>
    ensures { IfOk result (λ sums. sums.items ≡ map plain_output outputs.now) }
{
    let mut sums = Vec::with_capacity(alloc, outputs.len())?;
    for sig in outputs {
        sums.push(plain_output(alloc, *sig)?)?;
    }
    Ok(sums)
}

fn plain_sum(alloc: Global, node: Node) -> Result<Sum, Memory>
    requires { AreTwo node }
    ensures { IfOk result (λ sum. sum ≡ plain_sum node) }
{
    match node {
        Node::Not(a) => sum_of_bits(alloc, &[a], true),
        Node::Xor(a, b) => sum_of_bits(alloc, &[a, b], false),
        Node::And(a, b) => {
            let mut products = Vec::new(alloc);
            products.push(Product::of_bits(alloc, a, b)?)?;
            Ok(Sum::new(Vec::new(alloc), products, false))
        }
    }
}

fn plain_output(alloc: Global, sig: Sig) -> Result<Sum, Memory>
    ensures { IfOk result (λ sum. sum ≡ plain_output sig) }
{
    match sig {
        Sig::Const(bit) => Ok(Sum::new(Vec::new(alloc), Vec::new(alloc), bit)),
        Sig::Is(base) => sum_of_bits(alloc, &[base], false),
    }
}

fn sum_of_bits(alloc: Global, bits: &[Base], one: bool) -> Result<Sum, Memory>
    ensures { IfOk result (λ sum. sum
        ≡ record { bits = bits.now; products = []; one = one }) }
{
    let bits = Vec::from_slice(alloc, bits)?;
    Ok(Sum::new(bits, Vec::new(alloc), one))
}
