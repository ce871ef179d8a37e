// Numbers: sums of digits and of names that a `for` binds.
ghost use Rattle.std.specs.Prelude.{◌≡◌, ◌≤◌, ◌+ℤ◌, ◌≤ℤ◌, length, pos, IfOk, IfErr, IsErrOf, Some};
ghost use Rattle.std.specs.Prelude.{None, if◌then◌else◌, FitsSigned};
ghost use Rattle.std.specs.Int.{w32};
ghost use Rattle.revs_terms.specs.Running.{went, moved, is_number, turns, unit_of, summed, more_of};
ghost use Rattle.revs_terms.specs.Running.{number_of};
ghost use Rattle.revs_terms.specs.Runs.{no_bits};
ghost use Rattle.revs_run.specs.inside.Machines.{IsMachine, Does, env_of, state_of};
ghost use Rattle.revs_run.specs.inside.Calls.{Says};
ghost use Rattle.revs_run.specs.inside.Numbers.{IsShort, index_of};

use crate::RunFault;
use crate::machine::Machine;
use revs_terms::limits::MOST_NUMBER;
use revs_terms::{Cause, Num, Step, Steps, Unit};

impl<'t> Machine<'t> {
    /// A number, its steps from left to right, with the names of an environment. It takes no
    /// memory.
    pub fn number(&mut self, env: u32, number: &Num) -> Result<i32, RunFault>
        requires machine { IsMachine self.old }
        requires env { env ≤ length self.old.bindings.items }
        ensures ok { IfOk result (λ sum. Does self.old self.new
            (number_of no_bits (env_of self.old env) number.now (state_of self.old)) sum) }
        ensures fits { IfOk result (λ sum. FitsSigned w32 sum) }
        ensures err { IfErr result (λ fault. Says fault
            (number_of no_bits (env_of self.old env) number.now (state_of self.old))) }
        ensures exact { ¬ IsErrOf result (RunFault.Memory _) }
    {
        match &number.steps {
            Steps::Digits(value, at) => self.summed(env, 0, false, &Unit::Digits(*value, *at)),
            Steps::Sum(sum) => {
                let first = self.summed(env, 0, false, &sum.first)?;
                self.more(env, first, &sum.more)
            }
        }
    }

    // A number so far, with the steps behind its first, each of which counts one unit of work.
    fn more(&mut self, env: u32, first: i32, steps: &[Step]) -> Result<i32, RunFault>
        requires machine { IsMachine self.old }
        requires env { env ≤ length self.old.bindings.items }
        ensures ok { IfOk result (λ sum. Does self.old self.new
            (more_of no_bits (env_of self.old env) first steps.now (state_of self.old)) sum) }
        ensures fits { IfOk result (λ sum. FitsSigned w32 sum) }
        ensures err { IfErr result (λ fault. Says fault
            (more_of no_bits (env_of self.old env) first steps.now (state_of self.old))) }
        ensures exact { ¬ IsErrOf result (RunFault.Memory _) }
    {
        let mut sum = first;
        for step in steps {
            self.work(1, step.unit.place())?;
            sum = self.summed(env, sum, step.minus, &step.unit)?;
        }
        Ok(sum)
    }

    // A number so far, with a unit more that is added or taken away.
    fn summed(&self, env: u32, sum: i32, minus: bool, unit: &Unit) -> Result<i32, RunFault>
        requires machine { IsMachine self.now }
        requires env { env ≤ length self.now.bindings.items }
        ensures ok { IfOk result (λ next.
            summed no_bits (env_of self.now env) sum (record { minus = minus; unit = unit.now })
            (state_of self.now) ≡ went next (state_of self.now)) }
        ensures fits { IfOk result (λ next. FitsSigned w32 next) }
        ensures err { IfErr result (λ fault. Says fault
            (summed no_bits (env_of self.now env) sum (record { minus = minus; unit = unit.now })
            (state_of self.now))) }
        ensures exact { ¬ IsErrOf result (RunFault.Memory _) }
    {
        let value = self.unit(env, unit)?;
        match narrowed(sum_of(minus, sum, value)) {
            Some(next) => Ok(next),
            None => Err(RunFault::stuck(Cause::Range, unit.place())),
        }
    }

    // The value of a unit.
    fn unit(&self, env: u32, unit: &Unit) -> Result<i64, RunFault>
        requires machine { IsMachine self.now }
        requires env { env ≤ length self.now.bindings.items }
        ensures ok { IfOk result (λ value.
            unit_of no_bits (env_of self.now env) unit.now (state_of self.now)
            ≡ went value (state_of self.now)) }
        ensures short { IfOk result (λ value. IsShort value) }
        ensures err { IfErr result (λ fault. Says fault
            (unit_of no_bits (env_of self.now env) unit.now (state_of self.now))) }
        ensures exact { ¬ IsErrOf result (RunFault.Memory _) }
    {
        match unit {
            Unit::Digits(value, _) => Ok(i64::from(*value)),
            Unit::Name(name) => match self.number_named(env, name.back) {
                Some(number) => Ok(i64::from(number)),
                None => Err(RunFault::stuck(Cause::NotNumber, name.at)),
            },
        }
    }
}

// A number so far, with a unit of this value added or taken away.
fn sum_of(minus: bool, sum: i32, value: i64) -> i64
    requires { IsShort value }
    ensures { result ≡ moved minus sum value }
{
    if minus {
        i64::from(sum) - value
    } else {
        i64::from(sum) + value
    }
}

// Whether a number is within the limits.
fn fits(sum: i64) -> bool
    ensures { result ≡ is_number sum }
{
    -i64::from(MOST_NUMBER) <= sum && sum <= i64::from(MOST_NUMBER)
}

// A number, where it is within the limits.
fn narrowed(sum: i64) -> Option<i32>
    ensures { result ≡ (if is_number sum then Some sum else None) }
{
    if fits(sum) { Some(sum as i32) } else { None }
}

/// The place in a register that a number stands for, and `None` where it is negative.
pub fn as_index(number: i32) -> Option<u32>
    ensures { result ≡ index_of number }
{
    if number < 0 {
        None
    } else {
        Some(number as u32)
    }
}

/// How many numbers there are from the first to the last.
pub fn turn_count(first: i32, last: i32) -> u64
    ensures { result ≡ turns first last }
{
    if first <= last {
        (i64::from(last) - i64::from(first)) as u64 + 1
    } else {
        0
    }
}

/// The number of a turn of a `for`, counted from 0.
pub fn number_at(first: i32, turn: u64) -> i32
    requires { (first +ℤ pos turn) ≤ℤ pos 2147483647 }
    ensures is { result ≡ first +ℤ pos turn }
    ensures fits { FitsSigned w32 result }
{
    (i64::from(first) + turn as i64) as i32
}
