// Registers and their parts.
ghost use Rattle.std.specs.Prelude.{◌≡◌, ◌≤◌, length, IsErrOf, IsSome};
ghost use Rattle.array_shapes.specs.Values.{register_of, seen};
ghost use Rattle.revs_terms.specs.declared.limits.TheConstants.{MOST_PLACES};
ghost use Rattle.revs_terms.specs.Running.{registered, short_register, part_of, parts_of, appended};
ghost use Rattle.revs_terms.specs.Running as runs;
ghost use Rattle.revs_terms.specs.Running.{rotated, element, turned};
ghost use Rattle.revs_terms.specs.Runs.{no_bits};
ghost use Rattle.revs_terms.specs.Terms.{place_of};
ghost use Rattle.revs_terms.specs.Trees.{tree_of};
ghost use Rattle.revs_run.specs.inside.Machines.{IsMachine, Goes, IsValue, env_of, value_of};
ghost use Rattle.revs_run.specs.inside.Machines.{state_of};
ghost use Rattle.revs_run.specs.inside.Calls.{Follows, shape_fault};
ghost use Rattle.revs_run.specs.inside.Numbers.{Takes, slice_step, turn_step};

use crate::RunFault;
use crate::machine::{Machine, RunResult};
use crate::numbers::as_index;
use array_shapes::{ShapeFault, Value, append, index, register, rotate, slice};
use revc_base::Place;
use revs_terms::limits::MOST_PLACES;
use revs_terms::{Cause, Num, Part, Term};
use std::alloc::Global;
use std::rc::Rc;

impl<'t> Machine<'t> {
    /// A register of these locations, whose length counts as work.
    pub fn register(&mut self, locations: Vec<u32>, at: Place) -> RunResult<'t>
        requires { IsMachine self.old }
        ensures { Follows (Goes self.old self.new)
            (registered no_bits locations.items at (state_of self.old)) result }
    {
        self.work(locations.len(), at)?;
        Ok(Value::Reg(Rc::new(self.allocator(), locations)?))
    }

    /// A register of these locations, of which there are at most 4,096.
    pub fn short_register(&mut self, locations: Vec<u32>, at: Place) -> RunResult<'t>
        requires { IsMachine self.old }
        ensures run { Follows (Goes self.old self.new)
            (short_register no_bits locations.items at (state_of self.old)) result }
        ensures memory { IsErrOf result (RunFault.Memory _)
            → length locations.items ≤ MOST_PLACES }
    {
        if locations.len() > MOST_PLACES {
            return Err(RunFault::stuck(Cause::Length, at));
        }
        self.register(locations, at)
    }

    /// A register, the value of an operand, with its places turned: those from the `k`-th on come
    /// first.
    pub fn rotated(&mut self, k: i32, operand: &Term, value: &Value<'t>, at: Place) -> RunResult<'t>
        requires { IsMachine self.old }
        ensures run { Follows (Goes self.old self.new)
            (rotated no_bits k (place_of (tree_of operand.now)) at (value_of self.old value.now)
            (state_of self.old)) result }
        ensures memory { IsErrOf result (RunFault.Memory _)
            → IsSome (register_of (seen value.now)) }
    {
        let Some(places) = register(value) else {
            return Err(RunFault::stuck(Cause::NotRegister, operand.place()));
        };
        self.turned(places, k, at)
    }

    // A register of the places from the `k`-th on of another, and then those before it.
    fn turned(&mut self, places: &[u32], k: i32, at: Place) -> RunResult<'t>
        requires { IsMachine self.old }
        ensures { Follows (Goes self.old self.new)
            (turn_step places.now k at (state_of self.old)) result }
    {
        match places_turned(self.allocator(), places, k) {
            Ok(turned) => self.register(turned, at),
            Err(fault) => Err(shape_fault(fault, at)),
        }
    }

    /// Two registers, the values of two operands, one behind the other.
    pub fn appended(
        &mut self,
        first: &Term,
        second: &Term,
        x: &Value<'t>,
        y: &Value<'t>,
        at: Place,
    ) -> RunResult<'t>
        requires { IsMachine self.old }
        ensures run { Follows (Goes self.old self.new)
            (appended no_bits (place_of (tree_of first.now)) (place_of (tree_of second.now)) at
            (value_of self.old x.now) (value_of self.old y.now) (state_of self.old)) result }
        ensures memory { IsErrOf result (RunFault.Memory _)
            → IsSome (register_of (seen x.now)) × IsSome (register_of (seen y.now)) }
    {
        let Some(front) = register(x) else {
            return Err(RunFault::stuck(Cause::NotRegister, first.place()));
        };
        let Some(back) = register(y) else {
            return Err(RunFault::stuck(Cause::NotRegister, second.place()));
        };
        match append(self.allocator(), front, back) {
            Ok(joined) => self.register(joined, at),
            Err(fault) => Err(shape_fault(fault, at)),
        }
    }

    /// The parts of a value, one after another. A slice counts its length at the whole term.
    pub fn parts(
        &mut self,
        env: u32,
        whole: Place,
        parts: &[Part],
        value: Value<'t>,
    ) -> RunResult<'t>
        requires machine { IsMachine self.old }
        requires env { env ≤ length self.old.bindings.items }
        requires made { IsValue (length self.old.bindings.items) value }
        ensures { Follows (Goes self.old self.new)
            (parts_of no_bits (env_of self.old env) whole parts.now (value_of self.old value.entry)
            (state_of self.old)) result }
    {
        let mut made = value;
        for part in parts {
            made = self.part(env, whole, part, &made)?;
        }
        Ok(made)
    }

    // One part of a register.
    fn part(&mut self, env: u32, whole: Place, part: &Part, value: &Value<'t>) -> RunResult<'t>
        requires machine { IsMachine self.old }
        requires env { env ≤ length self.old.bindings.items }
        ensures { Follows (Goes self.old self.new)
            (part_of no_bits (env_of self.old env) whole part.now (value_of self.old value.now)
            (state_of self.old)) result }
    {
        match part {
            Part::Index { i, at } => self.indexed(env, i, *at, value),
            Part::Slice { i, j, at } => self.sliced(env, whole, i, j, *at, value),
        }
    }

    // The location in one place of a register.
    fn indexed(&mut self, env: u32, i: &Num, at: Place, value: &Value<'t>) -> RunResult<'t>
        requires machine { IsMachine self.old }
        requires env { env ≤ length self.old.bindings.items }
        ensures run { Follows (Goes self.old self.new)
            (part_of no_bits (env_of self.old env) at (Part.Index i.now at)
            (value_of self.old value.now) (state_of self.old)) result }
        ensures exact { ¬ IsErrOf result (RunFault.Memory _) }
    {
        let Some(places) = register(value) else {
            return Err(RunFault::stuck(Cause::NotRegister, at));
        };
        let k = self.number(env, i)?;
        match element(places, k) {
            Some(location) => Ok(Value::Bit(location)),
            None => Err(RunFault::stuck(Cause::Index, at)),
        }
    }

    // The locations in the places from one to another of a register.
    fn sliced(
        &mut self,
        env: u32,
        whole: Place,
        i: &Num,
        j: &Num,
        at: Place,
        value: &Value<'t>,
    ) -> RunResult<'t>
        requires machine { IsMachine self.old }
        requires env { env ≤ length self.old.bindings.items }
        ensures run { Follows (Goes self.old self.new)
            (part_of no_bits (env_of self.old env) whole (Part.Slice i.now j.now at)
            (value_of self.old value.now) (state_of self.old)) result }
        ensures memory { IsErrOf result (RunFault.Memory _)
            → IsSome (register_of (seen value.now)) }
    {
        let Some(places) = register(value) else {
            return Err(RunFault::stuck(Cause::NotRegister, at));
        };
        let first = self.number(env, i)?;
        let last = self.number(env, j)?;
        self.between(places, first, last, at, whole)
    }

    // A register of the places from the `first`-th to the `last`-th of another.
    fn between(
        &mut self,
        places: &[u32],
        first: i32,
        last: i32,
        at: Place,
        whole: Place,
    ) -> RunResult<'t>
        requires { IsMachine self.old }
        ensures { Follows (Goes self.old self.new)
            (slice_step places.now first last at whole (state_of self.old)) result }
    {
        match places_between(self.allocator(), places, first, last) {
            Ok(between) => self.register(between, whole),
            Err(fault) => Err(shape_fault(fault, at)),
        }
    }
}

// The location in the `k`-th place of a register.
fn element(places: &[u32], k: i32) -> Option<u32>
    ensures { result ≡ element places.now k }
{
    index(places, as_index(k)?)
}

// The places of a register from the `first`-th to the `last`-th.
fn places_between(
    alloc: Global,
    places: &[u32],
    first: i32,
    last: i32,
) -> Result<Vec<u32>, ShapeFault>
    ensures { Takes ShapeFault.Slice (runs.places places.now first last) result }
{
    match (as_index(first), as_index(last)) {
        (Some(i), Some(j)) => slice(alloc, places, i, j),
        _ => Err(ShapeFault::Slice),
    }
}

// The places of a register from the `k`-th on, and then those before it.
fn places_turned(alloc: Global, places: &[u32], k: i32) -> Result<Vec<u32>, ShapeFault>
    ensures { Takes ShapeFault.Rotate (turned places.now k) result }
{
    match as_index(k) {
        Some(i) => rotate(alloc, i, places),
        None => Err(ShapeFault::Rotate),
    }
}

// The fault of a list call, for the term or part at this place.
fn shape_fault(fault: ShapeFault, at: Place) -> RunFault
    ensures { result ≡ shape_fault fault at }
{
    match fault {
        ShapeFault::Slice => RunFault::stuck(Cause::Slice, at),
        ShapeFault::Rotate => RunFault::stuck(Cause::Rotate, at),
        ShapeFault::Length => RunFault::stuck(Cause::Length, at),
        ShapeFault::Memory(memory) => RunFault::Memory(memory),
    }
}
