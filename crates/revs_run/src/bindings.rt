// Environments: values are bound, and found by how far out they were.
ghost use Rattle.revs_tape.specs.declared.limits.TheConstants.{MOST_INPUTS};
ghost use Rattle.std.specs.Prelude.{◌≡◌, ◌+◌, ◌≤◌, length, IfOk, IfErr};
ghost use Rattle.revs_terms.specs.Running.{bound, went, value_at};
ghost use Rattle.revs_terms.specs.Terms.{place_of};
ghost use Rattle.revs_terms.specs.Trees.{tree_of};
ghost use Rattle.array_shapes.specs.Values.{seen};
ghost use Rattle.revs_run.specs.inside.Machines.{view_length, IsMachine, BindsOne, IsValue, env_of};
ghost use Rattle.revs_run.specs.inside.Machines.{value_of, state_of, farther};
ghost use Rattle.revs_run.specs.inside.Calls.{Says, bind_step};
ghost use Rattle.revs_run.specs.inside.Numbers.{number_in};

use crate::RunFault;
use crate::leaps::leap_from;
use crate::machine::{Binding, Machine, RunResult};
use array_shapes::{Value, number};
use revs_terms::Term;

impl<'t> Machine<'t> {
    /// The environment with one more value, that of a term, which counts as work where it is a
    /// register.
    pub fn bind(&mut self, env: u32, value: Value<'t>, term: &Term) -> Result<u32, RunFault>
        requires machine { IsMachine self.old }
        requires room { length self.old.bindings.items + 1 ≤ MOST_INPUTS + self.old.work }
        requires env { env ≤ length self.old.bindings.items }
        requires made { IsValue (length self.old.bindings.items) value }
        ensures ok { IfOk result (λ bound. BindsOne self.old self.new
            (bind_step (value_of self.old value.entry) (env_of self.old env)
            (place_of (tree_of term.now)) (state_of self.old)) bound) }
        ensures err { IfErr result (λ fault. Says fault
            (bind_step (value_of self.old value.entry) (env_of self.old env)
            (place_of (tree_of term.now)) (state_of self.old))) }
    {
        self.work(bound_length(&value), term.place())?;
        self.push(env, value)
    }

    /// The environment with one more value. It counts no work.
    pub fn push(&mut self, env: u32, value: Value<'t>) -> Result<u32, RunFault>
        requires machine { IsMachine self.old }
        requires room { length self.old.bindings.items + 1 ≤ MOST_INPUTS + self.old.work }
        requires env { env ≤ length self.old.bindings.items }
        requires made { IsValue (length self.old.bindings.items) value }
        ensures ok { IfOk result (λ made. BindsOne self.old self.new
            (went (bound (value_of self.old value.entry) (env_of self.old env)) (state_of self.old))
            made) }
        ensures err { IfErr result (λ fault. fault ≡ RunFault.Memory _) }
    {
        let leap = leap_from(&self.bindings, env);
        self.bindings.push(Binding {
            value,
            parent: env,
            leap,
        })?;
        Ok(self.bindings.len() as u32)
    }

    // The environment so many bindings farther out.
    fn outward(&self, env: u32, count: u32) -> u32
        requires machine { IsMachine self.now }
        requires env { env ≤ length self.now.bindings.items }
        ensures is { env_of self.now result ≡ farther count (env_of self.now env) }
        ensures made { result ≤ length self.now.bindings.items }
    {
        if env == 0 || count == 0 {
            return env;
        }
        let binding = &self.bindings[env as usize - 1];
        if binding.leap.passed < count {
            return self.outward(binding.leap.to, count - 1 - binding.leap.passed);
        }
        self.outward(binding.parent, count - 1)
    }

    /// The value of a name, so many bindings back; it is unit where there is no such binding.
    pub fn named(&self, env: u32, back: u32) -> RunResult<'t>
        requires machine { IsMachine self.now }
        requires env { env ≤ length self.now.bindings.items }
        ensures ok { IfOk result (λ value. value_of self.now value ≡ value_at
            (env_of self.now env) back) }
        ensures made { IfOk result (λ value. IsValue (length self.now.bindings.items) value) }
        ensures err { IfErr result (λ fault. fault ≡ RunFault.Memory _) }
    {
        let there = self.outward(env, back);
        if there == 0 {
            return Ok(Value::Unit);
        }
        Ok(self.bindings[there as usize - 1].value.copy()?)
    }

    /// The number that a name has for its value, so many bindings back, and `None` where that is no
    /// number. It takes no memory.
    pub fn number_named(&self, env: u32, back: u32) -> Option<i32>
        requires machine { IsMachine self.now }
        requires env { env ≤ length self.now.bindings.items }
        ensures { result ≡ number_in (value_at (env_of self.now env) back) }
    {
        let there = self.outward(env, back);
        if there == 0 {
            return None;
        }
        number(&self.bindings[there as usize - 1].value)
    }
}

// The length that a value counts where it is bound.
fn bound_length(value: &Value) -> usize
    ensures { result ≡ view_length (seen value.now) }
{
    match value {
        Value::Reg(locations) => locations.len(),
        _ => 0,
    }
}
