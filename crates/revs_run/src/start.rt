// The machine before a program's body is run.
ghost use Rattle.revs_tape.specs.declared.limits.TheConstants.{MOST_INPUTS};
ghost use Rattle.std.specs.Prelude.{◌≡◌, ◌+◌, ◌-◌, ◌≤◌, [], length, map, Some};
ghost use Rattle.std.specs.List.{range_with_len};
ghost use Rattle.revs_terms.specs.Programs.{AreParams, width_of, widths_of};
ghost use Rattle.array_shapes.specs.Values.{seen};
ghost use Rattle.revs_run.specs.inside.Machines.{AreBindings, AreLeaps};
ghost use Rattle.revs_run.specs.inside.Starts.{param_view, AreBound, IsParamBinding, IsStart, Makes};

use crate::RunFault;
use crate::leaps::leap_from;
use crate::machine::{Binding, Machine, RunResult};
use array_shapes::Value;
use revs_tape::{Ref, Tape};
use revs_terms::Param;
use std::alloc::Global;
use std::rc::Rc;

// How many inputs a parameter has.
fn width(param: &Param) -> u32
    ensures { result ≡ width_of param.now.width }
{
    match param.width {
        Some(width) => width,
        None => 1,
    }
}

fn widths(alloc: Global, params: &[Param]) -> Result<Vec<u32>, RunFault>
    ensures { Makes (λ widths. widths.items ≡ widths_of params.now) result }
{
    Ok(params.iter().map(|param| width(param)).collect(alloc)?)
}

// The numbers from one on, before another.
fn numbers(alloc: Global, from: u32, to: u32) -> Result<Vec<u32>, RunFault>
    requires { from ≤ to }
    ensures { Makes (λ numbers. numbers.items ≡ range_with_len from (to - from)) result }
{
    let mut numbers = Vec::new(alloc);
    for number in from..to {
        numbers.push(number)?;
    }
    Ok(numbers)
}

// The inputs, each in its location.
fn inputs(alloc: Global, count: u32) -> Result<Vec<Option<Ref>>, RunFault>
    ensures { Makes (λ store. store.items ≡ map (λ input. Some (Ref.Input input))
        (range_with_len 0 count)) result }
{
    let numbers = numbers(alloc, 0, count)?;
    Ok(
        numbers
            .iter()
            .map(|input| Some(Ref::Input(*input)))
            .collect(alloc)?,
    )
}

// The value of a parameter whose first input is this one.
fn param_value<'t>(alloc: Global, first: u32, width: Option<u32>) -> RunResult<'t>
    requires { first + width_of width ≤ MOST_INPUTS }
    ensures { Makes (λ value. seen value ≡ param_view first width) result }
{
    match width {
        Some(width) => {
            let places = numbers(alloc, first, first + width)?;
            Ok(Value::Reg(Rc::new(alloc, places)?))
        }
        None => Ok(Value::Bit(first)),
    }
}

// The binding of a parameter whose first input is this one, behind those of the parameters before.
fn param_binding<'t>(
    alloc: Global,
    bindings: &[Binding<'t>],
    first: u32,
    width: Option<u32>,
) -> Result<Binding<'t>, RunFault>
    requires made { AreBindings 0 bindings.now }
    requires leaps { AreLeaps [] bindings.now }
    requires few { length bindings.now ≤ MOST_INPUTS }
    requires inputs { first + width_of width ≤ MOST_INPUTS }
    ensures { Makes (IsParamBinding bindings.now first width) result }
{
    let parent = bindings.len() as u32;
    let leap = leap_from(bindings, parent);
    Ok(Binding {
        value: param_value(alloc, first, width)?,
        parent,
        leap,
    })
}

// The parameters, bound one in the other.
fn bound<'t>(alloc: Global, params: &[Param]) -> Result<Vec<Binding<'t>>, RunFault>
    requires { AreParams params.now }
    ensures { Makes (λ bindings. AreBound params.now bindings.items) result }
{
    let mut bindings = Vec::new(alloc);
    let mut first = 0;
    for param in params {
        let binding = param_binding(alloc, &bindings, first, param.width)?;
        bindings.push(binding)?;
        first += width(param);
    }
    Ok(bindings)
}

/// The machine at the start of a program with these parameters. Its last environment is that of the
/// body.
pub fn start<'t>(alloc: Global, params: &[Param]) -> Result<Machine<'t>, RunFault>
    requires { AreParams params.now }
    ensures { Makes (λ machine. IsStart params.now machine) result }
{
    let tape = Tape::new(alloc, widths(alloc, params)?);
    let store = inputs(alloc, tape.inputs())?;
    let bindings = bound(alloc, params)?;
    Ok(Machine {
        bindings,
        store,
        tape,
        work: 0,
    })
}
