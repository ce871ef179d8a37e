// The names of parameters and terms are bound.
ghost use Rattle.std.specs.Prelude.{◌≡◌, ◌<◌, ◌+◌, ◌^◌, ◌∷◌, length, map, OnOk};
ghost use Rattle.revs_terms.specs.Scopes.{nearer, second_of, scoped_tree, scoped_trees};
ghost use Rattle.revs_terms.specs.Scopes.{scoped_items, scoped_num, scoped_parts};
ghost use Rattle.revs_terms.specs.Terms.{names_of, names_of_all, names_of_item, names_of_items};
ghost use Rattle.revs_terms.specs.Terms.{names_of_num, names_of_parts};
ghost use Rattle.revs_terms.specs.Trees.{tree_of, trees, item_tree_of, item_trees, no_items};
ghost use Rattle.revs_terms.specs.Trees as shape;
ghost use Rattle.name_scope.specs.inside.Verdicts.{Binds, BindsIn, Differ};
ghost use Rattle.name_scope.specs.inside.Verdicts.{in_turn, with_last, with_names, alone};

use crate::ScopeFault;
use crate::names::Names;
use crate::numbers::{bind_ends, bind_name, bind_num, bind_parts};
use revc_base::Text;
use revs_terms::{Ends, Item, Lambda, Num, Param, Part, Term};

/// Binds the names of parameters, each nearer than those before it.
pub fn bind_params(names: &mut Names, params: &[Param]) -> Result<(), ScopeFault>
    ensures second { Differ result (second_of names.old params.now) }
    ensures names { OnOk result (names.new ≡ nearer (map (λ p. p.name) params.now) names.old) }
{
    for param in params {
        if names.back(&param.name.text).is_some() {
            return Err(ScopeFault::TwoParams(param.name.at));
        }
        names.bind(&param.name.text)?;
    }
    Ok(())
}

/// Binds the names of a term among those in scope.
#[cycle(bind)]
#[tactic(auto, using(revs_terms::proofs::ShapeLemmas::shapes))]
pub fn bind_term(names: &mut Names, term: &mut Term) -> Result<(), ScopeFault>
    requires { length names.old + names_of (tree_of term.old) < 2 ^ 32 }
    ensures { BindsIn result (scoped_tree names.old (tree_of term.old)) (tree_of term.new)
        names.old names.new }
{
    match term {
        Term::Name(name) => bind_name(names, name),
        Term::Bool(_, _) => Ok(()),
        Term::Reg(elements, _) => bind_terms(names, elements),
        Term::Block(items, last, _) => bind_block(names, items, last),
        Term::Fun(function, _) => bind_function(names, function),
        Term::At(base, parts) => bind_with_parts(names, base, parts),
        Term::Apply(head, arguments) => bind_application(names, head, arguments),
        Term::Append(first, second, _) => bind_both(names, first, second),
        Term::Rotate(by, operand, _) => bind_rotation(names, by, operand),
        Term::Clean(operand, _) => bind_term(names, operand),
        Term::Assert(operand, _) => bind_term(names, operand),
        Term::And(operands) => bind_terms(names, operands),
        Term::Xor(operands) => bind_terms(names, operands),
        Term::Assign(left, right) => bind_both(names, left, right),
    }
}

/// Binds the names of two terms among those in scope.
#[cycle(bind)]
fn bind_both(names: &mut Names, first: &mut Term, second: &mut Term) -> Result<(), ScopeFault>
    requires { length names.old + (names_of (tree_of first.old) + names_of (tree_of second.old))
        < 2 ^ 32 }
    ensures { BindsIn result
        (in_turn (scoped_tree names.old (tree_of first.old))
        (scoped_tree names.old (tree_of second.old)))
        (tree_of first.new, tree_of second.new) names.old names.new }
{
    bind_term(names, first)?;
    bind_term(names, second)
}

/// Binds the names of a term and of its parts among those in scope.
#[cycle(bind)]
fn bind_with_parts(names: &mut Names, base: &mut Term, parts: &mut [Part]) -> Result<(), ScopeFault>
    requires { length names.old + (names_of (tree_of base.old) + names_of_parts parts.old)
        < 2 ^ 32 }
    ensures { BindsIn result
        (in_turn (scoped_tree names.old (tree_of base.old)) (scoped_parts names.old parts.old))
        (tree_of base.new, parts.new) names.old names.new }
{
    bind_term(names, base)?;
    bind_parts(names, parts)
}

/// Binds the names of a rotation's number and of its operand among those in scope.
#[cycle(bind)]
fn bind_rotation(names: &mut Names, by: &mut Num, operand: &mut Term) -> Result<(), ScopeFault>
    requires { length names.old + (names_of_num by.old + names_of (tree_of operand.old))
        < 2 ^ 32 }
    ensures { BindsIn result
        (in_turn (scoped_num names.old by.old) (scoped_tree names.old (tree_of operand.old)))
        (by.new, tree_of operand.new) names.old names.new }
{
    bind_num(names, by)?;
    bind_term(names, operand)
}

/// Binds the names of a function and of its arguments among those in scope.
#[cycle(bind)]
fn bind_application(
    names: &mut Names,
    head: &mut Term,
    arguments: &mut [Term],
) -> Result<(), ScopeFault>
    requires { length names.old + (names_of (tree_of head.old)
        + names_of_all (trees (map tree_of arguments.old))) < 2 ^ 32 }
    ensures { BindsIn result
        (in_turn (scoped_tree names.old (tree_of head.old))
        (scoped_trees names.old (trees (map tree_of arguments.old))))
        (tree_of head.new, trees (map tree_of arguments.new)) names.old names.new }
{
    bind_term(names, head)?;
    bind_terms(names, arguments)
}

/// Binds the names of a block, and lets those that it binds go out of scope.
#[cycle(bind)]
fn bind_block(names: &mut Names, items: &mut [Item], last: &mut Term) -> Result<(), ScopeFault>
    requires { length names.old + (names_of_items (item_trees (map item_tree_of items.old))
        + names_of (tree_of last.old)) < 2 ^ 32 }
    ensures { BindsIn result
        (with_last (scoped_items names.old (item_trees (map item_tree_of items.old)))
        (tree_of last.old))
        (item_trees (map item_tree_of items.new), tree_of last.new) names.old names.new }
{
    let depth = names.depth();
    bind_items(names, items)?;
    bind_term(names, last)?;
    names.leave(depth);
    Ok(())
}

/// Binds the names of a function's body, and lets those of the function go out of scope.
#[cycle(bind)]
fn bind_function(names: &mut Names, function: &mut Lambda) -> Result<(), ScopeFault>
    requires { length names.old
        + (length function.old.names.items + names_of (tree_of function.old.body)) < 2 ^ 32 }
    ensures { BindsIn result
        (with_names function.old.names.items
        (scoped_tree (nearer function.old.names.items names.old) (tree_of function.old.body)))
        (function.new.names.items, tree_of function.new.body) names.old names.new }
{
    let depth = names.depth();
    names.bind_all(&function.names)?;
    bind_term(names, &mut function.body)?;
    names.leave(depth);
    Ok(())
}

/// Binds the names of terms among those in scope.
#[cycle(bind)]
fn bind_terms(names: &mut Names, terms: &mut [Term]) -> Result<(), ScopeFault>
    requires { length names.old + names_of_all (trees (map tree_of terms.old)) < 2 ^ 32 }
    ensures { BindsIn result (scoped_trees names.old (trees (map tree_of terms.old)))
        (trees (map tree_of terms.new)) names.old names.new }
{
    for i in 0..terms.len() {
        bind_term(names, &mut terms[i])?;
    }
    Ok(())
}

/// Binds the names of a `for`: those of its numbers, and those of its items with its own name in
/// scope. It lets its name and those that its items bind go out of scope.
#[cycle(bind)]
fn bind_loop(
    names: &mut Names,
    name: &Text,
    ends: &mut Ends,
    items: &mut [Item],
) -> Result<(), ScopeFault>
    requires { length names.old + (names_of_num ends.old.first + names_of_num ends.old.last
        + names_of_items (item_trees (map item_tree_of items.old)) + 1) < 2 ^ 32 }
    ensures { BindsIn result
        (in_turn
        (in_turn (scoped_num names.old ends.old.first) (scoped_num names.old ends.old.last))
        (alone (scoped_items (name.now ∷ names.old) (item_trees (map item_tree_of items.old)))))
        ((ends.new.first, ends.new.last), item_trees (map item_tree_of items.new))
        names.old names.new }
{
    let depth = names.depth();
    bind_ends(names, &mut ends.first, &mut ends.last)?;
    names.bind(name)?;
    bind_items(names, items)?;
    names.leave(depth);
    Ok(())
}

/// Binds the names of the items of a block or a `for`, one after another. The names that they bind
/// stay in scope.
#[cycle(bind)]
fn bind_items(names: &mut Names, items: &mut [Item]) -> Result<(), ScopeFault>
    requires { length names.old + names_of_items
        (item_trees (map item_tree_of items.old)) < 2 ^ 32 }
    ensures { Binds result
        (scoped_items names.old (item_trees (map item_tree_of items.old)))
        (item_trees (map item_tree_of items.new), names.new) }
{
    for i in 0..items.len() {
        bind_item(names, &mut items[i])?;
    }
    Ok(())
}

/// Binds the names of an item. The name that it binds stays in scope.
#[cycle(bind)]
fn bind_item(names: &mut Names, item: &mut Item) -> Result<(), ScopeFault>
    requires { length names.old + names_of_item (item_tree_of item.old) < 2 ^ 32 }
    ensures { Binds result
        (scoped_items names.old (shape.item (item_tree_of item.old) no_items))
        (shape.item (item_tree_of item.new) no_items, names.new) }
{
    match item {
        Item::Let { name, value } => {
            bind_term(names, value)?;
            names.bind(&name.text)?;
            Ok(())
        }
        Item::Do(term) => bind_term(names, term),
        Item::For {
            name,
            ends,
            items,
            ..
        } => bind_loop(names, &name.text, ends, items),
    }
}
