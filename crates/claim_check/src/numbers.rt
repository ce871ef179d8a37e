// The numbers of the inputs and writes of a tape in a diagram.
ghost use Rattle.std.specs.Prelude.{◌≡◌, ◌<◌, ◌+◌, length, slice_index, IfErr, OnOk};
ghost use Rattle.std.specs.List.{AllByRecursion};
ghost use Rattle.revs_tape.specs.ClaimFunctions.{operands_of};
ghost use Rattle.revs_tape.specs.Measures.{inputs_of, writes_of};
ghost use Rattle.revs_tape.specs.Tapes.{IsTape};
ghost use Rattle.revs_tape.specs.VariableOrders.{variable_order};
ghost use Rattle.decision_diagram.specs.Growth.{Computes};
ghost use Rattle.claim_check.specs.inside.Labels.{claims_of};
ghost use Rattle.claim_check.specs.inside.Numbers.{AreMade, HasNumber, IsScheduleOf};
ghost use Rattle.claim_check.specs.inside.Numbers.{PassLimit};
ghost use Rattle.claim_check.specs.inside.Slots.{IsRefOf, slot_of, slots_of};
ghost use Rattle.claim_check.specs.inside.Tables.{HoldsOnlyMembers, function_at};
ghost use Rattle.claim_check.specs.Variables.{AreVariables};

use crate::labels::slot_of;
use crate::schedule::Schedule;
use decision_diagram::{Dd, DdFault, Diagram};
use revs_tape::{Entry, Ref, Tape};

// The input or write at a slot.
fn ref_at(tape: &Tape, slot: u32) -> Ref
    requires { slot < slots_of tape.now }
    ensures known { IsRefOf tape.now result }
    ensures slot { slot_of (inputs_of tape.now) result ≡ slot }
{
    let inputs = tape.inputs();
    if slot < inputs {
        Ref::Input(slot)
    } else {
        Ref::Write(slot - inputs)
    }
}

// The number in the slot of an input or a write.
pub fn number_at(tape: &Tape, numbers: &[Dd], made: Ref) -> Dd
    requires known { IsRefOf tape.now made }
    requires size { length numbers.now ≡ slots_of tape.now }
    ensures { result ≡ slice_index numbers.now (slot_of (inputs_of tape.now) made) }
{
    numbers[slot_of(tape.inputs(), made)]
}

// The number of the function of a write, where its operands have theirs.
fn number_of_write(
    diagram: &mut Diagram,
    tape: &Tape,
    numbers: &[Dd],
    write: u32,
) -> Result<Dd, DdFault>
    requires tape { IsTape tape.now }
    requires known { write < writes_of tape.now }
    requires size { length numbers.now ≡ slots_of tape.now }
    requires operands { AllByRecursion (HasNumber tape.now diagram.old.nodes numbers.now)
        (operands_of tape.now (Ref.Write write)) }
    ensures { Computes (function_at tape.now (Ref.Write write)) diagram.old diagram.new result }
{
    match tape.entry(write) {
        Entry::Const(bit) => Ok(diagram.truth(bit)),
        Entry::Xor(a, b) => diagram.xor(number_at(tape, numbers, a), number_at(tape, numbers, b)),
        Entry::And(a, b) => diagram.and(number_at(tape, numbers, a), number_at(tape, numbers, b)),
    }
}

// The number of the function of an input or a write, where its operands have theirs.
fn number_of(
    diagram: &mut Diagram,
    tape: &Tape,
    variables: &[u32],
    numbers: &[Dd],
    made: Ref,
) -> Result<Dd, DdFault>
    requires tape { IsTape tape.now }
    requires known { IsRefOf tape.now made }
    requires size { length numbers.now ≡ slots_of tape.now }
    requires vars { diagram.old.vars ≡ inputs_of tape.now }
    requires variables { AreVariables (inputs_of tape.now) (variable_order tape.now.params)
        variables.now }
    requires operands { AllByRecursion (HasNumber tape.now diagram.old.nodes numbers.now)
        (operands_of tape.now made) }
    ensures { Computes (function_at tape.now made) diagram.old diagram.new result }
{
    match made {
        Ref::Input(i) => diagram.input(variables[i as usize]),
        Ref::Write(j) => number_of_write(diagram, tape, numbers, j),
    }
}

// Numbers for what a claim rests on and no claim before it does, in the order of the slots.
pub fn number_claim(
    diagram: &mut Diagram,
    numbers: &mut [Dd],
    tape: &Tape,
    schedule: &Schedule,
    claim: u32,
) -> Result<(), DdFault>
    requires schedule { IsScheduleOf tape.now schedule.now }
    requires claim { claim < claims_of tape.now }
    requires members { HoldsOnlyMembers tape.now (claim + 1) diagram.old }
    requires made { AreMade tape.now schedule.now.labels.items claim 0 diagram.old.nodes
        numbers.old }
    ensures limit { diagram.new.limit ≡ diagram.old.limit }
    ensures members { HoldsOnlyMembers tape.now (claim + 1) diagram.new }
    ensures made { OnOk result (AreMade tape.now schedule.now.labels.items (claim + 1) 0
        diagram.new.nodes numbers.new) }
    ensures refused { IfErr result (PassLimit tape.now (claim + 1) diagram.new) }
{
    let slots = tape.inputs() + tape.len();
    let mut slot = schedule.chains.first[claim as usize];
    'chain: while slot < slots {
        let made = ref_at(tape, slot);
        numbers[slot as usize] = number_of(diagram, tape, &schedule.variables, numbers, made)?;
        slot = schedule.chains.next[slot as usize];
    }
    Ok(())
}
