// The first claim that rests on each input and write of a tape.
ghost use Rattle.std.specs.Prelude.{◌≡◌, ◌<◌, ◌∷◌, [], length, IfOk};
ghost use Rattle.std.specs.List.{AllByRecursion};
ghost use Rattle.revs_tape.specs.Tapes.{operands};
ghost use Rattle.claim_check.specs.inside.Labels.{AreLabels, AreLowered, AreSound, HaveClaims};
ghost use Rattle.claim_check.specs.inside.Labels.{claims_of};
ghost use Rattle.claim_check.specs.inside.Slots.{slot_of};

use revc_base::Memory;
use revs_tape::{Entry, Ref, Tape};

// The slot of an input or a write in a table of them all: the inputs stand first.
pub fn slot_of(inputs: u32, made: Ref) -> usize
    ensures { result ≡ slot_of inputs made }
{
    match made {
        Ref::Input(i) => i as usize,
        Ref::Write(j) => inputs as usize + j as usize,
    }
}

fn lower(labels: &mut [u32], inputs: u32, made: Ref, label: u32)
    requires { slot_of inputs made < length labels.old }
    ensures { AreLowered inputs (made ∷ []) label labels.old labels.new }
{
    let slot = slot_of(inputs, made);
    labels[slot] = labels[slot].min(label);
}

// Lowers the labels of what a write is made of.
fn pass_on(labels: &mut [u32], inputs: u32, entry: Entry, label: u32)
    requires { AllByRecursion (λ made. slot_of inputs made < length labels.old) (operands entry) }
    ensures { AreLowered inputs (operands entry) label labels.old labels.new }
{
    match entry {
        Entry::Const(_) => {}
        Entry::Xor(a, b) | Entry::And(a, b) => {
            lower(labels, inputs, a, label);
            lower(labels, inputs, b, label);
        }
    }
}

// Labels what each claim is on.
fn label_claims(tape: &Tape, labels: &mut [u32])
    requires { AreSound tape.now labels.old }
    ensures sound { AreSound tape.now labels.new }
    ensures claims { HaveClaims tape.now (claims_of tape.now) labels.new }
{
    for (number, claim) in tape.claims().iter().enumerate() {
        lower(labels, tape.inputs(), claim.of, number as u32);
    }
}

// Labels the operands of each write, from the last to the first.
fn label_operands(tape: &Tape, labels: &mut [u32])
    requires sound { AreSound tape.now labels.old }
    requires claims { HaveClaims tape.now (claims_of tape.now) labels.old }
    ensures { AreLabels tape.now labels.new }
{
    for j in (0..tape.len()).rev() {
        let label = labels[(tape.inputs() + j) as usize];
        pass_on(labels, tape.inputs(), tape.entry(j), label);
    }
}

// The label of each input and write: the first claim that rests on it, or the number of claims
// where none does.
pub fn labels(tape: &Tape) -> Result<Vec<u32>, Memory>
    ensures { IfOk result (λ labels. AreLabels tape.now labels.items) }
{
    let none = tape.claims().len() as u32;
    let slots = (tape.inputs() + tape.len()) as usize;
    let mut labels = vec![in *tape.allocator(); none; slots]?;
    let all = labels.as_mut_slice();
    label_claims(tape, all);
    label_operands(tape, all);
    Ok(labels)
}
