// The forms of the outputs.
ghost use Rattle.std.specs.Prelude.{length, IfOk, OnOk};
ghost use Rattle.dependency_graph.specs.Graphs.{IsKnownSig};
ghost use Rattle.product_sums.specs.Products.{Extends};
ghost use Rattle.circuit_verify.specs.Compared.{comparison};
ghost use Rattle.sum_verify.specs.inside.Forms.{AreFormsBefore, AreOutputForms, HasVariables};
ghost use Rattle.sum_verify.specs.inside.Nodes.{IsSigForm};

use crate::fault::FormsFault;
use crate::nodes::{base_form, node_forms};
use circuit_verify::Compared;
use cut_sweeping::Sweep;
use dependency_graph::Sig;
use linear_forms::Form;
use std::alloc::Global;

// The form of a base or a constant.
fn sig_form(
    alloc: Global,
    lines: &[Form],
    nodes: &[Option<Form>],
    sig: Sig,
) -> Result<Form, FormsFault>
    requires { IsKnownSig (length lines.now) (length nodes.now) sig }
    ensures { IfOk result (IsSigForm lines.now nodes.now sig) }
{
    match sig {
        Sig::Const(bit) => Ok(Form::constant(alloc, bit)),
        Sig::Is(base) => {
            let form = base_form(lines, nodes, base)?;
            Ok(form.copy()?)
        }
    }
}

// The form of each output.
pub fn output_forms(
    alloc: Global,
    products: &mut Sweep,
    compared: &Compared,
    lines: &[Form],
) -> Result<Vec<Form>, FormsFault>
    requires variables { HasVariables (comparison compared.now) products.old }
    requires lines { AreFormsBefore compared.now products.old lines.now }
    ensures extends { OnOk result (Extends products.old products.new) }
    ensures outputs { IfOk result
        (λ outputs. AreOutputForms compared.now products.new outputs.items) }
{
    let _ = compared.variables(); // shows what is known of both
    let nodes = node_forms(alloc, products, compared, lines)?;
    let mut outputs = Vec::new(alloc);
    for sig in compared.graph.outputs() {
        outputs.push(sig_form(alloc, lines, &nodes, *sig)?)?;
    }
    Ok(outputs)
}
