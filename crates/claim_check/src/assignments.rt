// The variables of a diagram, and the inputs that they are.
ghost use Rattle.std.specs.Prelude.{◌≡◌, ◌<◌, ◌≤◌, ◌++◌, ◌^◌, length, slice_index, sum, EachIndex};
ghost use Rattle.std.specs.Prelude.{IfOk, OnOk, map};
ghost use Rattle.list_facts.specs.Bits.{bit_of};
ghost use Rattle.revs_tape.specs.Tapes.{AreWidths};
ghost use Rattle.revs_tape.specs.VariableOrders.{IsOrderOf, inputs_at, variable_order};
ghost use Rattle.claim_check.specs.Variables.{AreVariables};

use revc_base::Memory;
use std::alloc::Global;

// Appends the inputs at a place of each parameter that has it.
fn push_inputs(order: &mut Vec<u32>, params: &[u32], place: u32) -> Result<(), Memory>
    requires { sum params.now < 2 ^ 32 }
    ensures { OnOk result (order.new.items ≡ order.old.items ++ inputs_at place 0 params.now) }
{
    let mut first = 0;
    for width in params {
        if place < *width {
            order.push(first + place)?;
        }
        first += *width;
    }
    Ok(())
}

// The most places that a parameter has.
fn widest(params: &[u32]) -> u32
    ensures { EachIndex params.now (λ k. slice_index params.now k ≤ result) }
{
    params.iter().copied().max().unwrap_or(0)
}

// The order of the variables, as inputs.
fn variable_order(alloc: Global, params: &[u32]) -> Result<Vec<u32>, Memory>
    requires { AreWidths params.now }
    ensures { IfOk result (λ order. order.items ≡ variable_order params.now) }
{
    let mut order = Vec::new(alloc);
    for place in 0..widest(params) {
        push_inputs(&mut order, params, place)?;
    }
    Ok(order)
}

// The place of each number in an order.
fn places(alloc: Global, order: &[u32]) -> Result<Vec<u32>, Memory>
    requires few { length order.now < 2 ^ 32 }
    requires order { IsOrderOf (length order.now) order.now }
    ensures { IfOk result (λ places. AreVariables (length order.now) order.now places.items) }
{
    let mut places = vec![in alloc; 0; order.len()]?;
    for (place, number) in order.iter().enumerate() {
        places[*number as usize] = place as u32;
    }
    Ok(places)
}

/// The variable of each input, by its place in the order of the variables of parameters with these
/// widths.
pub fn variables(alloc: Global, params: &[u32]) -> Result<Vec<u32>, Memory>
    requires { AreWidths params.now }
    ensures { IfOk result (λ variables.
        AreVariables (sum params.now) (variable_order params.now) variables.items) }
{
    let order = variable_order(alloc, params)?;
    places(alloc, &order)
}

// The bit at a place; past the end it is false.
fn bit_of(bits: &[bool], place: u32) -> bool
    ensures { result ≡ bit_of bits.now place }
{
    bits.get(place as usize).copied().unwrap_or(false)
}

/// The bits that an assignment of the variables gives, where each has its variable.
pub fn bits_of(alloc: Global, assignment: &[bool], variables: &[u32]) -> Result<Vec<bool>, Memory>
    ensures { IfOk result (λ bits. bits.items ≡ map (bit_of assignment.now) variables.now) }
{
    Ok(
        variables
            .iter()
            .map(|variable| bit_of(assignment, *variable))
            .collect(alloc)?,
    )
}
