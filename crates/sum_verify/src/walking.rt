// The forms of the lines, gate by gate.
ghost use Rattle.std.specs.Prelude.{◌≡◌, ◌<◌, length, IfOk, OnOk};
ghost use Rattle.mct_circuit.specs.declared.gate.Op.TheVariants.{Flip};
ghost use Rattle.mct_circuit.specs.Gates.{IsGateOn, IsNarrow};
ghost use Rattle.product_sums.specs.Products.{Extends};
ghost use Rattle.circuit_verify.specs.Compared.{comparison};
ghost use Rattle.sum_verify.specs.inside.Forms.{AreDetermined, AreFormsBefore};
ghost use Rattle.sum_verify.specs.inside.Forms.{AreFormsBehind, HasVariables};
ghost use Rattle.sum_verify.specs.inside.Forms.{IsFlipped};

use circuit_verify::{Compared, target_of};
use cut_sweeping::Sweep;
use linear_forms::Form;
use mct_circuit::Gate;
use product_sums::ProductsFault;

// The form of the line that a narrow gate flips, behind the gate.
fn flipped(
    products: &mut Sweep,
    lines: &[Form],
    gate: &Gate,
    target: u32,
) -> Result<Form, ProductsFault>
    requires narrow { IsNarrow gate.now }
    requires placed { IsGateOn (length lines.now) gate.now }
    requires target { gate.now.op ≡ Flip target }
    requires determined { AreDetermined products.old lines.now }
    ensures extends { OnOk result (Extends products.old products.new) }
    ensures flipped { IfOk result (IsFlipped products.new lines.now gate.now target) }
{
    let line = &lines[target as usize];
    match gate.controls() {
        [] => Ok(line.copy()?.with_one(true)),
        [control] => products.sum(line, &lines[control.line as usize]),
        [first, second, ..] => {
            let (first, second) = (&lines[first.line as usize], &lines[second.line as usize]);
            let product = products.product(first, second)?;
            products.sum(line, &product)
        }
    }
}

// Takes the forms of the lines through all gates.
pub fn walk(
    products: &mut Sweep,
    compared: &Compared,
    lines: &mut [Form],
) -> Result<(), ProductsFault>
    requires variables { HasVariables (comparison compared.now) products.old }
    requires start { AreFormsBefore compared.now products.old lines.old }
    ensures extends { OnOk result (Extends products.old products.new) }
    ensures ends { OnOk result (AreFormsBehind compared.now products.new lines.new) }
{
    let _ = compared.variables(); // shows what is known of both
    for gate in compared.circuit.gates() {
        let target = target_of(gate);
        let form = flipped(products, lines, gate, target)?;
        products.let_go(lines[target as usize].len());
        products.hold(form.len());
        lines[target as usize] = form;
    }
    Ok(())
}
