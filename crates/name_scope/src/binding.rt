// The scope rule over a whole program.
ghost use Rattle.std.specs.Prelude.{◌≡◌, []};
ghost use Rattle.name_scope.specs.declared.binding.ScopeFault.TheVariants as faults;
ghost use Rattle.revs_terms.specs.Programs.{HasFewNames};
ghost use Rattle.revs_terms.specs.Scopes.{scope_verdict, BindsToNearest, UnboundHasNone};
ghost use Rattle.revs_terms.specs.Trees.{tree_of};
ghost use Rattle.name_scope.specs.Answers.{Answers};
ghost use Rattle.name_scope.specs.Repeated.{RefusesFirstRepeated, PassesOwnNames};
ghost use Rattle.name_scope.specs.inside.Verdicts.{Settles};

use crate::Scoped;
use crate::names::Names;
use crate::terms::{bind_params, bind_term};
use revc_base::{Memory, Place, WantOfMemory};
use revs_terms::{Param, Program, Term};
use std::alloc::Global;

/// Why the names of a program cannot be bound.
#[derive(Drop)]
pub enum ScopeFault {
    /// The name that is used here has no binding.
    Unbound(Place),
    /// The parameter whose name stands here has the name of one before it.
    TwoParams(Place),
    /// There was no memory.
    Memory(Memory),
}

impl<M: WantOfMemory> From<M> for ScopeFault {
    ghost from_gives = { λ _ e. e ≡ faults.Memory _ };

    fn from(want: M) -> ScopeFault {
        ScopeFault::Memory(want.memory())
    }
}

/// Binds the names of a program: the `back` of each used name becomes the number of bindings
/// between the use and its own binding. All else stays as it is.
///
/// A parameter is bound in the whole body, a function's names in its body, the last one nearest,
/// the name of a `let` in the later items of its block or `for` and in the last expression of its
/// block, and the name of a `for` in its items. A nearer binding hides a farther one.
///
/// # Errors
///
/// The first in the order of the text: [`ScopeFault::TwoParams`] at the second of two parameters of
/// one name, and [`ScopeFault::Unbound`] at a used name that has no binding. [`ScopeFault::Memory`]
/// where there is no memory.
pub fn scope(alloc: Global, program: Program) -> Result<Scoped, ScopeFault>
    ensures { Answers result program.params.items
        (scope_verdict program.params.items (tree_of program.body)) }
{
    let Program { params, mut body } = program;
    bind_program(alloc, &params, &mut body)?;
    Ok(Scoped::new(Program { params, body }))
}

// Binds the names of parameters and of a body.
fn bind_program(alloc: Global, params: &[Param], body: &mut Term) -> Result<(), ScopeFault>
    requires { HasFewNames params.now (tree_of body.old) }
    ensures { Settles result params.now (tree_of body.old) (tree_of body.new) }
{
    let mut names = Names::new(alloc);
    bind_in_turn(&mut names, params, body)
}

// Binds the names of parameters, where none is in scope, and then those of a body.
fn bind_in_turn(names: &mut Names, params: &[Param], body: &mut Term) -> Result<(), ScopeFault>
    requires none { names.old ≡ [] }
    requires few { HasFewNames params.now (tree_of body.old) }
    ensures { Settles result params.now (tree_of body.old) (tree_of body.new) }
{
    bind_params(names, params)?;
    bind_term(names, body)
}

/// A used name is bound to the nearest binding of its name: the binding at its `back` has its name,
/// and no nearer one has. A name is unbound only where no binding in scope has its name.
pub fn nearest_binding()
    ensures bound { BindsToNearest }
    ensures unbound { UnboundHasNone }
{}

/// The parameter that is refused is the first, in text order, that has the name of one before it.
/// Where none is refused, no two parameters have one name.
pub fn repeated_parameter()
    ensures refused { RefusesFirstRepeated }
    ensures passed { PassesOwnNames }
{}
