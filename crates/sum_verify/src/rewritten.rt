// The forms of the outputs by a graph of sums with fewer products.
ghost use Rattle.std.specs.Prelude.{◌≡◌, length, true, IfOk, IfSome, OnOk};
ghost use Rattle.bit_sums.specs.Sums.{AreAll, IsProductOver};
ghost use Rattle.product_sums.specs.Products.{Extends};
ghost use Rattle.sum_graph.specs.Graphs.{IsKnownSum, is_known};
ghost use Rattle.circuit_verify.specs.Compared.{comparison};
ghost use Rattle.sum_verify.specs.inside.Forms.{AreDetermined, AreFormsBefore};
ghost use Rattle.sum_verify.specs.inside.Forms.{AreOutputForms, HasVariables};
ghost use Rattle.sum_verify.specs.inside.Rewritten.{AreNodesOf, HasOutputsOf, IsHeldBits};
ghost use Rattle.sum_verify.specs.inside.Rewritten.{IsHeldProduct, IsHeldSum, held_form};

use crate::fault::FormsFault;
use crate::outputs::output_forms;
use bit_sums::{MOST_FACTOR_BITS, Product, Sum};
use circuit_verify::Compared;
use claim_check::Settled;
use cut_sweeping::Sweep;
use dependency_graph::Base;
use few_products::few_products;
use linear_forms::Form;
use revc_base::Memory;
use std::alloc::Global;
use sum_graph::SumGraph;

/// A graph of sums with fewer products, with the outputs of a settled graph: that of the circuits
/// that are compiled from it. None where none is found.
pub fn rewritten(alloc: Global, graph: &Settled) -> Result<Option<SumGraph>, Memory>
    ensures { IfOk result (λ found. IfSome found (HasOutputsOf graph.now)) }
{
    let lean = SumGraph::lean(alloc, graph, MOST_FACTOR_BITS)?;
    few_products(alloc, &lean)
}

/// The form of each output: by the sums of such a graph, or by the nodes of the settled graph.
pub fn output_forms_by(
    alloc: Global,
    products: &mut Sweep,
    compared: &Compared,
    lines: &[Form],
    graph: Option<&SumGraph>,
) -> Result<Vec<Form>, FormsFault>
    requires variables { HasVariables (comparison compared.now) products.old }
    requires lines { AreFormsBefore compared.now products.old lines.now }
    requires graph { IfSome graph (λ graph. HasOutputsOf compared.now.graph graph.now) }
    ensures extends { OnOk result (Extends products.old products.new) }
    ensures outputs { IfOk result
        (λ outputs. AreOutputForms compared.now products.new outputs.items) }
{
    match graph {
        Some(graph) => {
            let nodes = forms_of_nodes(alloc, products, compared, lines, graph)?;
            forms_of_outputs(alloc, products, compared, lines, &nodes, graph)
        }
        None => output_forms(alloc, products, compared, lines),
    }
}

// The form of each node.
fn forms_of_nodes(
    alloc: Global,
    products: &mut Sweep,
    compared: &Compared,
    lines: &[Form],
    graph: &SumGraph,
) -> Result<Vec<Form>, FormsFault>
    requires variables { HasVariables (comparison compared.now) products.old }
    requires lines { AreFormsBefore compared.now products.old lines.now }
    requires graph { HasOutputsOf compared.now.graph graph.now }
    ensures extends { OnOk result (Extends products.old products.new) }
    ensures nodes { IfOk result (λ nodes. AreNodesOf compared.now products.new
        (length graph.now.nodes) graph.now.nodes nodes.items) }
{
    let _ = compared.variables(); // shows what is known of both
    let count = graph.nodes();
    let mut nodes = Vec::new(alloc);
    for k in 0..count {
        let form = sum_form(alloc, products, lines, &nodes, graph.node(k))?;
        products.hold(form.len());
        nodes.push(form)?;
    }
    Ok(nodes)
}

// The form of each output, by those of nodes.
fn forms_of_outputs(
    alloc: Global,
    products: &mut Sweep,
    compared: &Compared,
    lines: &[Form],
    nodes: &[Form],
    graph: &SumGraph,
) -> Result<Vec<Form>, FormsFault>
    requires variables { HasVariables (comparison compared.now) products.old }
    requires lines { AreFormsBefore compared.now products.old lines.now }
    requires nodes { AreNodesOf compared.now products.old (length graph.now.nodes) graph.now.nodes
        nodes.now }
    requires graph { HasOutputsOf compared.now.graph graph.now }
    ensures extends { OnOk result (Extends products.old products.new) }
    ensures outputs { IfOk result
        (λ outputs. AreOutputForms compared.now products.new outputs.items) }
{
    let _ = compared.variables(); // shows what is known of both
    let mut outputs = Vec::new(alloc);
    for sum in graph.outputs() {
        outputs.push(sum_form(alloc, products, lines, nodes, sum)?)?;
    }
    Ok(outputs)
}

// ---- the form of one sum

// The form of a sum, by those of lines and nodes.
fn sum_form(
    alloc: Global,
    products: &mut Sweep,
    lines: &[Form],
    nodes: &[Form],
    sum: &Sum,
) -> Result<Form, FormsFault>
    requires known { IsKnownSum (length lines.now) (length nodes.now) sum.now }
    requires lines { AreDetermined products.old lines.now }
    requires nodes { AreDetermined products.old nodes.now }
    ensures extends { OnOk result (Extends products.old products.new) }
    ensures form { IfOk result (IsHeldSum products.new lines.now nodes.now sum.now) }
{
    let mut form = bits_form(alloc, products, lines, nodes, sum.bits(), sum.one())?;
    for product in sum.products() {
        let next = product_form(alloc, products, lines, nodes, product)?;
        form = products.sum(&form, &next)?;
    }
    Ok(form)
}

// The form of a product.
fn product_form(
    alloc: Global,
    products: &mut Sweep,
    lines: &[Form],
    nodes: &[Form],
    product: &Product,
) -> Result<Form, FormsFault>
    requires known { IsProductOver (is_known (length lines.now) (length nodes.now)) product.now }
    requires lines { AreDetermined products.old lines.now }
    requires nodes { AreDetermined products.old nodes.now }
    ensures extends { OnOk result (Extends products.old products.new) }
    ensures form { IfOk result (IsHeldProduct products.new lines.now nodes.now product.now) }
{
    let first = bits_form(alloc, products, lines, nodes, product.first(), false)?;
    let second = bits_form(alloc, products, lines, nodes, product.second(), false)?;
    Ok(products.product(&first, &second)?)
}

// The form of the sum of some bits and a constant.
fn bits_form(
    alloc: Global,
    products: &mut Sweep,
    lines: &[Form],
    nodes: &[Form],
    bits: &[Base],
    one: bool,
) -> Result<Form, FormsFault>
    requires known { AreAll (is_known (length lines.now) (length nodes.now)) bits.now }
    requires lines { AreDetermined products.old lines.now }
    requires nodes { AreDetermined products.old nodes.now }
    ensures same { products.new ≡ products.old }
    ensures form { IfOk result (IsHeldBits products.old lines.now nodes.now bits.now one) }
{
    let mut form = Form::constant(alloc, one);
    for base in bits {
        form = products.sum(&form, bit_form(lines, nodes, *base))?;
    }
    Ok(form)
}

// The form of a base.
fn bit_form<'f>(lines: &'f [Form], nodes: &'f [Form], base: Base) -> &'f Form
    requires { is_known (length lines.now) (length nodes.now) base ≡ true }
    ensures { result.now ≡ held_form lines.now nodes.now base }
{
    match base {
        Base::Input(i) => &lines[i as usize],
        Base::Node(k) => &nodes[k as usize],
    }
}
