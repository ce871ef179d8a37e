// The numbers of the nodes and the outputs of a settled graph, that of the program or that of the
// premise.
ghost use Rattle.std.specs.Prelude.{◌≡◌, ◌<◌, length, IfErr, IfOk};
ghost use Rattle.dependency_graph.specs.Graphs.{IsKnownBase, IsKnownNode, IsKnownSig};
ghost use Rattle.decision_diagram.specs.Growth.{Computes, StandsFor};
ghost use Rattle.circuit_verify.specs.Comparisons.{input_bits};
ghost use Rattle.circuit_verify.specs.Verdicts.{IsVerifyFault};
ghost use Rattle.circuit_verify.specs.Compared.{comparison};
ghost use Rattle.circuit_verify.specs.inside.Numbers.{AreVariableNumbers, AreOutputNumbers};
ghost use Rattle.circuit_verify.specs.inside.Numbers.{AreKnown, AreNumbersOf, GrowsBy, HoldsLines};
ghost use Rattle.circuit_verify.specs.inside.Numbers.{HoldsNodesOf, base_number, first_values};
ghost use Rattle.circuit_verify.specs.inside.Numbers.{node_function_of, sig_function_of};

use crate::VerifyFault;
use crate::compared::Compared;
use claim_check::Settled;
use decision_diagram::{Dd, DdFault, Diagram};
use dependency_graph::{Base, Node, Sig};
use revc_base::Memory;
use std::alloc::Global;

// The number of a base.
fn base_number(bits: &[Dd], nodes: &[Dd], base: Base) -> Dd
    requires { IsKnownBase (length bits.now) (length nodes.now) base }
    ensures { result ≡ base_number bits.now nodes.now base }
{
    match base {
        Base::Input(i) => bits[i as usize],
        Base::Node(k) => nodes[k as usize],
    }
}

// The number of a node, where its operands have theirs.
fn node_number(diagram: &mut Diagram, bits: &[Dd], nodes: &[Dd], node: Node) -> Result<Dd, DdFault>
    requires bits { AreKnown diagram.old.nodes bits.now }
    requires nodes { AreKnown diagram.old.nodes nodes.now }
    requires known { IsKnownNode (length bits.now) (length nodes.now) node }
    ensures { Computes (node_function_of diagram.old.nodes bits.now nodes.now node) diagram.old
        diagram.new result }
{
    match node {
        Node::Not(a) => {
            let always = diagram.truth(true);
            diagram.xor(base_number(bits, nodes, a), always)
        }
        Node::Xor(a, b) => diagram.xor(base_number(bits, nodes, a), base_number(bits, nodes, b)),
        Node::And(a, b) => diagram.and(base_number(bits, nodes, a), base_number(bits, nodes, b)),
    }
}

// The number of each node, one after another.
fn number_nodes(
    alloc: Global,
    diagram: &mut Diagram,
    compared: &Compared,
    graph: &Settled,
    bits: &[Dd],
) -> Result<Vec<Dd>, VerifyFault>
    requires holds { HoldsLines (comparison compared.now) diagram.old }
    requires graph { HoldsNodesOf (comparison compared.now) graph.now }
    requires bits { AreVariableNumbers (comparison compared.now) diagram.old.nodes bits.now }
    ensures grows { GrowsBy (comparison compared.now) diagram.old diagram.new }
    ensures numbers { IfOk result (λ nodes. AreNumbersOf (comparison compared.now)
        diagram.new.nodes nodes.items (λ bits. first_values graph.now (length graph.now.nodes)
        (input_bits (comparison compared.now) bits))) }
    ensures refused { IfErr result (IsVerifyFault (comparison compared.now) diagram.new.limit) }
{
    let _ = compared.variables(); // shows what is known of both
    let mut nodes = Vec::new(alloc);
    for k in 0..graph.nodes() {
        let number = node_number(diagram, bits, &nodes, graph.node(k))?;
        nodes.push(number)?;
    }
    Ok(nodes)
}

// The number of a base or a constant.
fn sig_number(diagram: &Diagram, bits: &[Dd], nodes: &[Dd], sig: Sig) -> Dd
    requires bits { AreKnown diagram.now.nodes bits.now }
    requires nodes { AreKnown diagram.now.nodes nodes.now }
    requires known { IsKnownSig (length bits.now) (length nodes.now) sig }
    ensures { StandsFor diagram.now.nodes result
        (sig_function_of diagram.now.nodes bits.now nodes.now sig) }
{
    match sig {
        Sig::Const(bit) => diagram.truth(bit),
        Sig::Is(base) => base_number(bits, nodes, base),
    }
}

// The number of each output, where the nodes have theirs.
fn number_made(
    alloc: Global,
    diagram: &Diagram,
    compared: &Compared,
    graph: &Settled,
    bits: &[Dd],
    nodes: &[Dd],
) -> Result<Vec<Dd>, Memory>
    requires graph { HoldsNodesOf (comparison compared.now) graph.now }
    requires bits { AreVariableNumbers (comparison compared.now) diagram.now.nodes bits.now }
    requires nodes { AreNumbersOf (comparison compared.now) diagram.now.nodes nodes.now
        (λ bits. first_values graph.now (length graph.now.nodes)
        (input_bits (comparison compared.now) bits)) }
    ensures { IfOk result (λ outputs. AreOutputNumbers (comparison compared.now) graph.now
        diagram.now.nodes outputs.items) }
{
    let _ = compared.variables(); // shows what is known of both
    let mut outputs = Vec::new(alloc);
    for sig in graph.outputs() {
        outputs.push(sig_number(diagram, bits, nodes, *sig))?;
    }
    Ok(outputs)
}

// The number of each output of a settled graph.
pub fn number_outputs(
    alloc: Global,
    diagram: &mut Diagram,
    compared: &Compared,
    graph: &Settled,
    bits: &[Dd],
) -> Result<Vec<Dd>, VerifyFault>
    requires holds { HoldsLines (comparison compared.now) diagram.old }
    requires graph { HoldsNodesOf (comparison compared.now) graph.now }
    requires bits { AreVariableNumbers (comparison compared.now) diagram.old.nodes bits.now }
    ensures grows { GrowsBy (comparison compared.now) diagram.old diagram.new }
    ensures numbers { IfOk result (λ outputs. AreOutputNumbers (comparison compared.now) graph.now
        diagram.new.nodes outputs.items) }
    ensures refused { IfErr result (IsVerifyFault (comparison compared.now) diagram.new.limit) }
{
    let _ = compared.variables(); // shows what is known of both
    let nodes = number_nodes(alloc, diagram, compared, graph, bits)?;
    Ok(number_made(alloc, diagram, compared, graph, bits, &nodes)?)
}
