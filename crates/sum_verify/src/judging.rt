// What the forms of the lines say of a circuit.
ghost use Rattle.std.specs.Prelude.{◌≡◌, ◌<◌, IfOk, OnOk};
ghost use Rattle.list_facts.specs.Bits.{bit_of};
ghost use Rattle.circuit_verify.specs.Compared.{comparison};
ghost use Rattle.circuit_verify.specs.Comparisons.{IsAdded, wanted_on};
ghost use Rattle.circuit_plans.specs.declared.roles.Placing.TheVariants.{InPlace};
ghost use Rattle.circuit_verify.specs.Verdicts.{IsVerified};
ghost use Rattle.sum_verify.specs.inside.Forms.{AreFormsBehind, AreOutputForms};
ghost use Rattle.sum_verify.specs.inside.Forms.{HasVariables, IsFormOf};

use crate::fault::FormsFault;
use crate::start::start_form;
use circuit_plans::Placing;
use circuit_verify::Compared;
use cut_sweeping::Sweep;
use linear_forms::Form;
use std::alloc::Global;

// The form that a line should have behind the gates.
fn wanted_form(
    alloc: Global,
    products: &mut Sweep,
    compared: &Compared,
    outputs: &[Form],
    line: u32,
) -> Result<Form, FormsFault>
    requires line { line < compared.now.circuit.lines }
    requires outputs { AreOutputForms compared.now products.old outputs.now }
    ensures same { products.new ≡ products.old }
    ensures wanted { IfOk result (λ form. IsFormOf (comparison compared.now) products.old form
        (λ bits. bit_of (wanted_on (comparison compared.now) bits) line)) }
{
    match compared.placing() {
        Placing::Added(_) => added_form(alloc, products, compared, outputs, line),
        Placing::InPlace => in_place_form(alloc, products, compared, outputs, line),
    }
}

// The form that a line should have where outputs are added: that of an output line is the output
// added to what the line held.
fn added_form(
    alloc: Global,
    products: &mut Sweep,
    compared: &Compared,
    outputs: &[Form],
    line: u32,
) -> Result<Form, FormsFault>
    requires placing { IsAdded compared.now.placing }
    requires line { line < compared.now.circuit.lines }
    requires outputs { AreOutputForms compared.now products.old outputs.now }
    ensures same { products.new ≡ products.old }
    ensures wanted { IfOk result (λ form. IsFormOf (comparison compared.now) products.old form
        (λ bits. bit_of (wanted_on (comparison compared.now) bits) line)) }
{
    let _ = compared.variables(); // shows what is known of both
    let start = start_form(alloc, compared, line)?;
    let inputs = compared.inputs();
    if line < inputs || line - inputs >= compared.outputs() {
        return Ok(start);
    }
    Ok(products.sum(&start, &outputs[(line - inputs) as usize])?)
}

// The form that a line should have where the outputs take the place of the inputs.
fn in_place_form(
    alloc: Global,
    products: &Sweep,
    compared: &Compared,
    outputs: &[Form],
    line: u32,
) -> Result<Form, FormsFault>
    requires placing { compared.now.placing ≡ InPlace }
    requires line { line < compared.now.circuit.lines }
    requires outputs { AreOutputForms compared.now products.now outputs.now }
    ensures { IfOk result (λ form. IsFormOf (comparison compared.now) products.now form
        (λ bits. bit_of (wanted_on (comparison compared.now) bits) line)) }
{
    let _ = compared.variables(); // shows what is known of both
    if line >= compared.outputs() {
        return Ok(start_form(alloc, compared, line)?);
    }
    Ok(outputs[line as usize].copy()?)
}

// The circuit is verified, where each line has the form that it should have.
pub fn judge(
    alloc: Global,
    products: &mut Sweep,
    compared: &Compared,
    outputs: &[Form],
    lines: &[Form],
) -> Result<(), FormsFault>
    requires variables { HasVariables (comparison compared.now) products.old }
    requires outputs { AreOutputForms compared.now products.old outputs.now }
    requires lines { AreFormsBehind compared.now products.old lines.now }
    ensures { OnOk result (IsVerified (comparison compared.now)) }
{
    let _ = compared.variables(); // shows what is known of both
    products.valuations();
    for (line, form) in lines.iter().enumerate() {
        let wanted = wanted_form(alloc, products, compared, outputs, line as u32)?;
        let is_right = products.are_equal(form, &wanted)?;
        if !is_right {
            return Err(FormsFault::Unsettled);
        }
    }
    Ok(())
}
