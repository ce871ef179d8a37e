// The forms of the nodes of a settled graph.
ghost use Rattle.std.specs.Prelude.{◌≡◌, ◌+◌, ◌<◌, ◌≤◌, length, Some, IfOk, OnOk};
ghost use Rattle.std.specs.List.{AllByRecursion};
ghost use Rattle.dependency_graph.specs.Graphs.{IsKnownBase, IsKnownNode, operands};
ghost use Rattle.product_sums.specs.Products.{Extends};
ghost use Rattle.circuit_verify.specs.Compared.{comparison};
ghost use Rattle.sum_verify.specs.inside.Forms.{AreFormsBefore, HasVariables};
ghost use Rattle.sum_verify.specs.inside.Nodes.{AreDeterminedBases, HoldsNodes, IsNodeForm};
ghost use Rattle.sum_verify.specs.inside.Nodes.{KeepsForms, base_form};

use crate::fault::FormsFault;
use circuit_verify::Compared;
use claim_check::Settled;
use cut_sweeping::Sweep;
use dependency_graph::{Base, Node};
use linear_forms::Form;
use std::alloc::Global;

// The form of a base. One that was let go leaves the circuit unsettled.
pub fn base_form<'f>(
    lines: &'f [Form],
    nodes: &'f [Option<Form>],
    base: Base,
) -> Result<&'f Form, FormsFault>
    requires { IsKnownBase (length lines.now) (length nodes.now) base }
    ensures { IfOk result (λ form. base_form lines.now nodes.now base ≡ Some form.now) }
{
    match base {
        Base::Input(i) => Ok(&lines[i as usize]),
        Base::Node(k) => nodes[k as usize].as_ref().ok_or(FormsFault::Unsettled),
    }
}

// The form of a node, by those of its operands.
fn node_form(
    products: &mut Sweep,
    lines: &[Form],
    nodes: &[Option<Form>],
    node: Node,
) -> Result<Form, FormsFault>
    requires known { IsKnownNode (length lines.now) (length nodes.now) node }
    requires determined { AreDeterminedBases products.old lines.now nodes.now }
    ensures extends { OnOk result (Extends products.old products.new) }
    ensures form { IfOk result (IsNodeForm products.new lines.now nodes.now node) }
{
    match node {
        Node::Not(a) => {
            let operand = base_form(lines, nodes, a)?;
            let form = operand.copy()?;
            Ok(form.with_one(true))
        }
        Node::Xor(a, b) => {
            let left = base_form(lines, nodes, a)?;
            let right = base_form(lines, nodes, b)?;
            Ok(products.sum(left, right)?)
        }
        Node::And(a, b) => {
            let left = base_form(lines, nodes, a)?;
            let right = base_form(lines, nodes, b)?;
            Ok(products.product(left, right)?)
        }
    }
}

// The words of a form, where it is held.
fn words_of(form: &Option<Form>) -> usize {
    match form {
        Some(form) => form.len(),
        None => 0,
    }
}

// Lets the form of a base go where it is a node that node `user` uses for the last time.
fn let_go_last(
    products: &mut Sweep,
    nodes: &mut [Option<Form>],
    graph: &Settled,
    base: Base,
    user: u32,
)
    requires count { length nodes.old ≤ length graph.now.nodes }
    requires base { IsKnownBase graph.now.inputs (length nodes.old) base }
    ensures same { products.new ≡ products.old }
    ensures kept { KeepsForms nodes.old nodes.new }
{
    let Base::Node(k) = base else {
        return;
    };
    if graph.last_use(k) == user {
        products.let_go(words_of(&nodes[k as usize]));
        nodes[k as usize] = None;
    }
}

// Lets the forms of the operands go that their node uses for the last time.
fn let_go_used(
    products: &mut Sweep,
    nodes: &mut [Option<Form>],
    graph: &Settled,
    node: Node,
    user: u32,
)
    requires count { length nodes.old ≤ length graph.now.nodes }
    requires operands { AllByRecursion (IsKnownBase graph.now.inputs (length nodes.old))
        (operands node) }
    ensures same { products.new ≡ products.old }
    ensures kept { KeepsForms nodes.old nodes.new }
{
    match node {
        Node::Not(a) => let_go_last(products, nodes, graph, a, user),
        Node::Xor(a, b) | Node::And(a, b) => {
            let_go_last(products, nodes, graph, a, user);
            let_go_last(products, nodes, graph, b, user);
        }
    }
}

// Appends the form of the next node, and lets those go that no later node or output needs.
fn add_node(
    products: &mut Sweep,
    compared: &Compared,
    lines: &[Form],
    nodes: &mut Vec<Option<Form>>,
    k: u32,
) -> Result<(), FormsFault>
    requires inside { k < length compared.now.graph.nodes }
    requires variables { HasVariables (comparison compared.now) products.old }
    requires lines { AreFormsBefore compared.now products.old lines.now }
    requires nodes { HoldsNodes compared.now products.old k nodes.old.items }
    ensures extends { OnOk result (Extends products.old products.new) }
    ensures nodes { OnOk result (HoldsNodes compared.now products.new (k + 1) nodes.new.items) }
{
    let _ = compared.variables(); // shows what is known of both
    let node = compared.graph.node(k);
    let form = node_form(products, lines, nodes, node)?;
    products.hold(form.len());
    nodes.push(Some(form))?;
    let_go_used(products, nodes, compared.graph, node, k);
    Ok(())
}

// The form of each node. Those that no output needs were let go.
pub fn node_forms(
    alloc: Global,
    products: &mut Sweep,
    compared: &Compared,
    lines: &[Form],
) -> Result<Vec<Option<Form>>, FormsFault>
    requires variables { HasVariables (comparison compared.now) products.old }
    requires lines { AreFormsBefore compared.now products.old lines.now }
    ensures extends { OnOk result (Extends products.old products.new) }
    ensures nodes { IfOk result (λ nodes. HoldsNodes compared.now products.new
        (length compared.now.graph.nodes) nodes.items) }
{
    let count = compared.graph.nodes();
    let mut nodes = Vec::new(alloc);
    for k in 0..count {
        add_node(products, compared, lines, &mut nodes, k)?;
    }
    Ok(nodes)
}
