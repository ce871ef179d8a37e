// The forms of the lines before the gates.
ghost use Rattle.std.specs.Prelude.{◌<◌, IfOk};
ghost use Rattle.circuit_verify.specs.Compared.{comparison};
ghost use Rattle.sum_verify.specs.inside.Forms.{AreStartForms, IsStartAtom, IsStartForm};

use circuit_verify::Compared;
use linear_forms::Form;
use revc_base::Memory;
use std::alloc::Global;

// The atom that a line holds before the gates, if any: an input line, an output line that may hold
// any bit, and a borrowed line do.
fn atom_at(compared: &Compared, line: u32) -> Option<u32>
    requires { line < compared.now.circuit.lines }
    ensures { IsStartAtom (comparison compared.now) line result }
{
    let _ = compared.variables(); // shows what is known of both
    let held = compared.inputs() + compared.output_variables(); // their atoms have their numbers
    let borrowed = compared.circuit.lines() - compared.borrow;
    if line < held {
        return Some(line);
    }
    if line >= borrowed {
        return Some(line - borrowed + held);
    }
    None
}

// The form of a line before the gates.
pub fn start_form(alloc: Global, compared: &Compared, line: u32) -> Result<Form, Memory>
    requires { line < compared.now.circuit.lines }
    ensures { IfOk result (IsStartForm (comparison compared.now) line) }
{
    match atom_at(compared, line) {
        Some(atom) => Form::atom(alloc, atom),
        None => Ok(Form::constant(alloc, false)),
    }
}

// The form of each line before the gates.
pub fn start_forms(alloc: Global, compared: &Compared) -> Result<Vec<Form>, Memory>
    ensures { IfOk result (λ lines. AreStartForms (comparison compared.now)
        compared.now.circuit.lines lines.items) }
{
    let _ = compared.variables(); // shows what is known of both
    let count = compared.circuit.lines();
    let mut lines = Vec::new(alloc);
    for line in 0..count {
        lines.push(start_form(alloc, compared, line)?)?;
    }
    Ok(lines)
}
