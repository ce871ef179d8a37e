// The machine that runs a program without bits.
ghost use Rattle.std.specs.Prelude.{◌≡◌, ◌<◌, length, sum, IfOk, OnOk, IfErr, IsErrOf};
ghost use Rattle.revs_tape.specs.Tapes.{IsKnown, IsKnownEntry};
ghost use Rattle.revs_terms.specs.declared.limits.TheConstants.{MOST_RUN_WRITES};
ghost use Rattle.revs_terms.specs.Running.{went, worked, written, read};
ghost use Rattle.revs_terms.specs.Runs.{no_bits};
ghost use Rattle.revs_terms.specs.Terms.{place_of};
ghost use Rattle.revs_terms.specs.Trees.{tree_of};
ghost use Rattle.revs_run.specs.inside.Calls.{Says};
ghost use Rattle.array_shapes.specs.Values.{seen};
ghost use Rattle.revs_run.specs.inside.Machines.{IsMachine, Does, LeavesRoom, AddsWork, state_of};
ghost use Rattle.revs_run.specs.inside.Machines.{Forgets, Settles};

use crate::RunFault;
use crate::leaps::Leap;
use array_shapes::Value;
use revc_base::Place;
use revs_tape::{Entry, Ref, Tape};
use revs_terms::limits::{MOST_RUN_WRITES, MOST_WORK};
use revs_terms::{Cause, Term};
use std::alloc::Global;

/// How a run ends: with a value, or at a fault.
pub type RunResult<'t> = Result<Value<'t>, RunFault>;

/// A value with a name, the number of the environment that it was bound in, and a leap out of that
/// environment.
#[derive(Drop)]
pub struct Binding<'t> {
    pub value: Value<'t>,
    pub parent: u32,
    pub leap: Leap,
}

/// What a run has made so far: the bindings, what each location holds, the tape and the work.
///
/// Environment 0 is empty, and environment k + 1 is that of binding k: its value, and then its
/// parent's.
#[derive(Drop)]
pub struct Machine<'t> {
    pub bindings: Vec<Binding<'t>>,
    pub store: Vec<Option<Ref>>,
    pub tape: Tape,
    pub work: u32,
}

impl<'t> Machine<'t> {
    /// Where the machine takes its memory from.
    pub fn allocator(&self) -> Global {
        *self.store.allocator()
    }

    /// The number of the environment that was made last.
    pub fn last_environment(&self) -> u32
        requires { IsMachine self.now }
        ensures { result ≡ length self.now.bindings.items }
    {
        self.bindings.len() as u32
    }

    /// Lets go of all bindings but the first so many.
    pub fn forget(&mut self, kept: u32)
        ensures { Forgets kept self.old self.new }
    {
        self.bindings.truncate(kept as usize);
    }

    /// Lets go of all bindings but the first so many, unless the value is a function.
    pub fn settle(&mut self, kept: u32, value: &Value<'t>)
        ensures { Settles kept (seen value.now) self.old self.new }
    {
        match value {
            Value::Fun { .. } => {}
            Value::Unit | Value::Bit(_) | Value::Reg(_) | Value::Num(_) => self.forget(kept),
        }
    }

    /// Enters a term, which counts one unit of work.
    pub fn enter(&mut self, term: &Term) -> Result<(), RunFault>
        requires { IsMachine self.old }
        ensures ok { OnOk result (Does self.old self.new
            (worked no_bits 1 (place_of (tree_of term.now)) (state_of self.old)) tt) }
        ensures room { OnOk result (LeavesRoom self.old self.new) }
        ensures err { IfErr result (λ fault. Says fault
            (worked no_bits 1 (place_of (tree_of term.now)) (state_of self.old))) }
        ensures exact { ¬ IsErrOf result (RunFault.Memory _) }
    {
        if self.work >= MOST_WORK {
            return Err(RunFault::stuck(Cause::Work, term.place()));
        }
        self.work += 1;
        Ok(())
    }

    /// Counts so much work at this place.
    pub fn work(&mut self, count: usize, at: Place) -> Result<(), RunFault>
        requires { IsMachine self.old }
        ensures ok { OnOk result (Does self.old self.new
            (worked no_bits count at (state_of self.old)) tt) }
        ensures added { OnOk result (AddsWork count self.old self.new) }
        ensures err { IfErr result (λ fault. Says fault
            (worked no_bits count at (state_of self.old))) }
        ensures exact { ¬ IsErrOf result (RunFault.Memory _) }
    {
        if count > (MOST_WORK - self.work) as usize {
            return Err(RunFault::stuck(Cause::Work, at));
        }
        self.work += count as u32;
        Ok(())
    }

    /// What made the bit in a location, which a term has for its value.
    pub fn read(&self, location: u32, term: &Term) -> Result<Ref, RunFault>
        requires { IsMachine self.now }
        ensures ok { IfOk result (λ made. read no_bits location (place_of (tree_of term.now))
            (state_of self.now) ≡ went (record { bit = tt; stamp = made }) (state_of self.now)) }
        ensures known { IfOk result (λ made. IsKnown (sum self.now.tape.params)
            (length self.now.tape.entries) made) }
        ensures err { IfErr result (λ fault. Says fault
            (read no_bits location (place_of (tree_of term.now)) (state_of self.now))) }
        ensures exact { ¬ IsErrOf result (RunFault.Memory _) }
    {
        match self.store.get(location as usize) {
            Some(Some(made)) => Ok(*made),
            _ => Err(RunFault::stuck(Cause::Gone, term.place())),
        }
    }

    /// Writes an entry into a new location.
    pub fn write(&mut self, entry: Entry, at: Place) -> Result<u32, RunFault>
        requires machine { IsMachine self.old }
        requires known { IsKnownEntry (sum self.old.tape.params)
            (length self.old.tape.entries) entry }
        ensures ok { IfOk result (λ made. Does self.old self.new
            (written no_bits entry tt at (state_of self.old)) made) }
        ensures err { IfErr result (λ fault. Says fault
            (written no_bits entry tt at (state_of self.old))) }
        ensures memory { IsErrOf result (RunFault.Memory _)
            → length self.old.tape.entries < MOST_RUN_WRITES }
    {
        if self.tape.len() as usize >= MOST_RUN_WRITES {
            return Err(RunFault::stuck(Cause::Writes, at));
        }
        let location = self.store.len() as u32;
        let made = self.tape.push(entry)?;
        self.store.push(Some(made))?;
        Ok(location)
    }
}
