// Constants, claims and assignments.
ghost use Rattle.std.specs.Prelude.{◌<◌, length, IsErrOf};
ghost use Rattle.revs_tape.specs.declared.limits.TheConstants.{MOST_CLAIMS};
ghost use Rattle.revs_terms.specs.Running.{constant_bit, claim_on, assigned};
ghost use Rattle.revs_terms.specs.Runs.{no_bits};
ghost use Rattle.revs_terms.specs.Terms.{place_of};
ghost use Rattle.revs_terms.specs.Trees.{tree_of};
ghost use Rattle.revs_run.specs.inside.Machines.{IsMachine, Goes, state_of};
ghost use Rattle.revs_run.specs.inside.Calls.{Follows};

use crate::RunFault;
use crate::machine::{Machine, RunResult};
use array_shapes::Value;
use revc_base::Place;
use revs_tape::limits::MOST_CLAIMS;
use revs_tape::{Claim, Entry, Kind};
use revs_terms::{Cause, Term};

impl<'t> Machine<'t> {
    /// Writes a constant.
    pub fn constant(&mut self, bit: bool, at: Place) -> RunResult<'t>
        requires { IsMachine self.old }
        ensures { Follows (Goes self.old self.new)
            (constant_bit no_bits bit at (state_of self.old)) result }
    {
        Ok(Value::Bit(self.write(Entry::Const(bit), at)?))
    }

    /// A claim on the bit in a location. `clean` takes the bit out.
    pub fn claim(&mut self, kind: Kind, location: u32, operand: &Term, at: Place) -> RunResult<'t>
        requires { IsMachine self.old }
        ensures run { Follows (Goes self.old self.new)
            (claim_on no_bits kind location (place_of (tree_of operand.now)) at (state_of self.old))
            result }
        ensures memory { IsErrOf result (RunFault.Memory _)
            → length self.old.tape.claims < MOST_CLAIMS }
    {
        let of = self.read(location, operand)?;
        if self.tape.claims().len() >= MOST_CLAIMS {
            return Err(RunFault::stuck(Cause::Claims, at));
        }
        self.tape.claim(Claim { kind, of, at })?;
        if kind == Kind::Clean {
            self.store[location as usize] = None;
        }
        Ok(Value::Unit)
    }

    /// Puts the bit of one location into another.
    pub fn assign(&mut self, to: u32, from: u32, left: &Term, right: &Term) -> RunResult<'t>
        requires { IsMachine self.old }
        ensures run { Follows (Goes self.old self.new)
            (assigned no_bits to from (place_of (tree_of left.now)) (place_of (tree_of right.now))
            (state_of self.old)) result }
        ensures exact { ¬ IsErrOf result (RunFault.Memory _) }
    {
        self.read(to, left)?;
        let made = self.read(from, right)?;
        self.store[to as usize] = Some(made);
        Ok(Value::Unit)
    }
}
