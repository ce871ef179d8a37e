// The names in scope.
ghost use Rattle.std.specs.Prelude.{◌≡◌, ◌≤◌, ◌∷◌, ◌-◌, List, [], drop, length, position, bytes_eq};
ghost use Rattle.std.specs.Prelude.{OnOk, OnErr, IfOk, ℕ, map, reverse};
ghost use Rattle.indexmap.specs.IndexMap.{get, IsUnchanged};
ghost use Rattle.revs_terms.specs.Scopes.{nearer};
ghost use Rattle.name_scope.specs.inside.Bindings.{held, IsNoted, depth_of, Hide};

use indexmap::IndexMap;
use revc_base::{Memory, Text};
use revs_terms::Name;
use std::alloc::Global;
use std::marker::Model;

/// A name that was bound, with the depth at which the nearest one of the same name was bound before
/// it.
#[derive(Drop)]
pub struct Bound {
    pub name: Text,
    pub hidden: Option<usize>,
}

/// The names in scope, with their nesting. Contracts see them as a list, the nearest first.
///
/// A table holds the depth at which each name was bound nearest, so that a look-up takes the same
/// time at any depth.
#[derive(Drop)]
pub struct Names {
    bound: Vec<Bound>,
    nearest: IndexMap<Text, Option<usize>>,
}

impl Model for Names {
    ghost Value = { List (List ℕ) };

    ghost view = { λ names. map (λ b. b.name) (reverse names.bound.items) };

    ghost invariant = { λ names. Hide (reverse names.bound.items)
        × ((name : List ℕ) → held (get bytes_eq names.nearest name) ≡ depth_of name
        (reverse names.bound.items)) };
}

/// The depth of the nearest binding of a name.
fn nearest_depth(nearest: &IndexMap<Text, Option<usize>>, name: &Text) -> Option<usize>
    ensures { result ≡ held (get bytes_eq nearest.now name.now) }
{
    *nearest.get(name)?
}

/// A name is bound nearest at this depth; the answer is the depth at which it was before. A refusal
/// changes nothing.
fn note(
    nearest: &mut IndexMap<Text, Option<usize>>,
    name: &Text,
    depth: usize,
) -> Result<Option<usize>, Memory>
    ensures hidden { IfOk result (λ hidden. hidden ≡ held (get bytes_eq nearest.old name.now)) }
    ensures noted { OnOk result (IsNoted (get bytes_eq nearest.old) (get bytes_eq nearest.new)
        name.now depth) }
    ensures err { OnErr result (IsUnchanged nearest.old nearest.new) }
{
    let key = name.copy()?;
    let before = nearest.insert(key, Some(depth))?;
    Ok(before.unwrap_or(None))
}

impl Names {
    /// No names.
    pub fn new(alloc: Global) -> Names
        ensures { result ≡ [] }
    {
        Names {
            bound: Vec::new(alloc),
            nearest: IndexMap::new(alloc),
        }
    }

    /// How many names are in scope.
    pub fn depth(&self) -> usize
        ensures { result ≡ length self.now }
    {
        self.bound.len()
    }

    /// The number of names that were bound after the nearest one of this name. It takes no memory.
    pub fn back(&self, name: &Text) -> Option<usize>
        ensures { result ≡ position (bytes_eq name.now) self.now }
    {
        let depth = nearest_depth(&self.nearest, name)?;
        Some(self.bound.len() - 1 - depth)
    }

    /// A name is bound, nearer than all others.
    pub fn bind(&mut self, name: &Text) -> Result<(), Memory>
        ensures { OnOk result (self.new ≡ name.now ∷ self.old) }
    {
        let depth = self.bound.len();
        let kept = name.copy()?;
        self.bound.reserve(1)?;
        let hidden = note(&mut self.nearest, name, depth)?;
        // There is room for one more, so this takes no memory.
        let _ = self.bound.push(Bound { name: kept, hidden });
        Ok(())
    }

    /// Names are bound, each nearer than those before it.
    pub fn bind_all(&mut self, names: &[Name]) -> Result<(), Memory>
        ensures { OnOk result (self.new ≡ nearer names.now self.old) }
    {
        for name in names {
            self.bind(&name.text)?;
        }
        Ok(())
    }

    /// The nearest name goes out of scope.
    fn unbind(&mut self)
        ensures { self.new ≡ drop 1 self.old }
    {
        if let Some(Bound { name, hidden }) = self.bound.pop() {
            // The name is there, so this takes no memory.
            let _ = self.nearest.insert(name, hidden);
        }
    }

    /// All but the `depth` farthest names go out of scope.
    pub fn leave(&mut self, depth: usize)
        requires { depth ≤ length self.old }
        ensures { self.new ≡ drop (length self.old - depth) self.old }
    {
        for _ in depth..self.bound.len() {
            self.unbind();
        }
    }
}
