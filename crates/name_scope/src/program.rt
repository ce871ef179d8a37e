// Programs whose names are bound.
ghost use Rattle.std.specs.Prelude.{◌≡◌, IsTrue, length};
ghost use Rattle.revs_terms.specs.Programs.{AreParams, IsBody, HasFewNames};
ghost use Rattle.revs_terms.specs.Trees.{tree_of};
ghost use Rattle.name_scope.specs.Bound.{is_bound};

use revs_terms::Program;

/// A program whose names are bound: the `back` of each used name is in range at its use.
#[derive(Drop)]
pub struct Scoped {
    program: Program,

    ghost bound: { IsTrue (is_bound (length program.params.items) (tree_of program.body)) },
}

impl Scoped {
    /// A program whose names are bound.
    pub(crate) fn new(program: Program) -> Scoped
        requires { IsTrue (is_bound (length program.params.items) (tree_of program.body)) }
        ensures { result.program ≡ program }
    {
        Scoped { program }
    }

    /// The program. It takes no memory.
    pub fn program(&self) -> &Program
        ensures same { result.now ≡ self.now.program }
        ensures bound { IsTrue
            (is_bound (length result.now.params.items) (tree_of result.now.body)) }
        ensures inputs { AreParams result.now.params.items }
        ensures formed { IsBody (tree_of result.now.body) }
        ensures few_names { HasFewNames result.now.params.items (tree_of result.now.body) }
    {
        &self.program
    }
}
