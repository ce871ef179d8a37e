// The names in numbers and in parts of registers are bound.
ghost use Rattle.std.specs.Prelude.{◌<◌, ◌^◌, ◌∷◌, length, IsErrOf};
ghost use Rattle.revs_terms.specs.Numbers.{plus};
ghost use Rattle.revs_terms.specs.Scopes.{bound_name, scoped_unit, scoped_num, scoped_part};
ghost use Rattle.revs_terms.specs.Scopes.{scoped_parts};
ghost use Rattle.name_scope.specs.inside.Verdicts.{Binds, in_turn};

use crate::ScopeFault;
use crate::names::Names;
use revs_terms::{Name, Num, Part, Step, Steps, Sum, Unit};

/// Binds a used name among those in scope. It takes no memory.
pub fn bind_name(names: &Names, name: &mut Name) -> Result<(), ScopeFault>
    requires { length names.now < 2 ^ 32 }
    ensures binds { Binds result (bound_name names.now name.old) name.new }
    ensures exact { ¬ IsErrOf result (ScopeFault.Memory _) }
{
    let Some(back) = names.back(&name.text) else {
        return Err(ScopeFault::Unbound(name.at));
    };
    name.back = back as u32;
    Ok(())
}

/// Binds the name of a unit, if it is one, among those in scope.
fn bind_unit(names: &Names, unit: &mut Unit) -> Result<(), ScopeFault>
    requires { length names.now < 2 ^ 32 }
    ensures { Binds result (scoped_unit names.now unit.old) unit.new }
{
    match unit {
        Unit::Digits(_, _) => Ok(()),
        Unit::Name(name) => bind_name(names, name),
    }
}

/// Binds the names of a number's steps among those in scope.
fn bind_steps(names: &Names, steps: &mut [Step]) -> Result<(), ScopeFault>
    requires { length names.now < 2 ^ 32 }
    ensures { Binds result (scoped_num names.now steps.old) steps.new }
{
    for i in 0..steps.len() {
        bind_unit(names, &mut steps[i].unit)?;
    }
    Ok(())
}

/// Binds the names of a sum among those in scope.
fn bind_sum(names: &Names, sum: &mut Sum) -> Result<(), ScopeFault>
    requires { length names.now < 2 ^ 32 }
    ensures { Binds result
        (scoped_num names.now (plus sum.old.first ∷ sum.old.more.items))
        (plus sum.new.first ∷ sum.new.more.items) }
{
    bind_unit(names, &mut sum.first)?;
    bind_steps(names, &mut sum.more)
}

/// Binds the names of a number among those in scope.
pub fn bind_num(names: &Names, number: &mut Num) -> Result<(), ScopeFault>
    requires { length names.now < 2 ^ 32 }
    ensures { Binds result (scoped_num names.now number.old) number.new }
{
    match &mut number.steps {
        Steps::Digits(_, _) => Ok(()),
        Steps::Sum(sum) => bind_sum(names, sum),
    }
}

/// Binds the names of two numbers among those in scope.
pub fn bind_ends(names: &Names, first: &mut Num, last: &mut Num) -> Result<(), ScopeFault>
    requires { length names.now < 2 ^ 32 }
    ensures { Binds result
        (in_turn (scoped_num names.now first.old) (scoped_num names.now last.old))
        (first.new, last.new) }
{
    bind_num(names, first)?;
    bind_num(names, last)
}

/// Binds the names of a part among those in scope.
fn bind_part(names: &Names, part: &mut Part) -> Result<(), ScopeFault>
    requires { length names.now < 2 ^ 32 }
    ensures { Binds result (scoped_part names.now part.old) part.new }
{
    match part {
        Part::Index { i, .. } => bind_num(names, i),
        Part::Slice { i, j, .. } => bind_ends(names, i, j),
    }
}

/// Binds the names of parts among those in scope.
pub fn bind_parts(names: &Names, parts: &mut [Part]) -> Result<(), ScopeFault>
    requires { length names.now < 2 ^ 32 }
    ensures { Binds result (scoped_parts names.now parts.old) parts.new }
{
    for i in 0..parts.len() {
        bind_part(names, &mut parts[i])?;
    }
    Ok(())
}
