// Operators of chains.
ghost use Rattle.std.specs.Prelude.{◌≡◌, IfOk, IfErr};
ghost use Rattle.revs_terms.specs.Terms.{place_of};
ghost use Rattle.revs_terms.specs.Trees.{tree_of};
ghost use Rattle.revs_run.specs.inside.Machines.{IsMachine, Does, state_of};
ghost use Rattle.revs_run.specs.inside.Calls.{Says, entry_of, join_step};

use crate::RunFault;
use crate::machine::Machine;
use revs_tape::{Entry, Ref};
use revs_terms::Term;

/// The operator of a chain.
#[derive(Clone, Copy)]
pub enum Operator {
    And,
    Xor,
}

impl<'t> Machine<'t> {
    /// The AND or the XOR of the bits in two locations; the first is read at the place of the
    /// chain's first operand.
    pub fn join(
        &mut self,
        op: Operator,
        so_far: u32,
        next: u32,
        first: &Term,
        term: &Term,
    ) -> Result<u32, RunFault>
        requires { IsMachine self.old }
        ensures ok { IfOk result (λ made. Does self.old self.new
            (join_step op so_far next (place_of (tree_of first.now)) (place_of (tree_of term.now))
            (state_of self.old)) made) }
        ensures err { IfErr result (λ fault. Says fault
            (join_step op so_far next (place_of (tree_of first.now)) (place_of (tree_of term.now))
            (state_of self.old))) }
    {
        let a = self.read(so_far, first)?;
        let b = self.read(next, term)?;
        self.write(entry(op, a, b), term.place())
    }
}

// The entry of an operator.
fn entry(op: Operator, a: Ref, b: Ref) -> Entry
    ensures { result ≡ entry_of op a b }
{
    match op {
        Operator::And => Entry::And(a, b),
        Operator::Xor => Entry::Xor(a, b),
    }
}
