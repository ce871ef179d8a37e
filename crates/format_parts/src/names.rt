// The names that a text lends, by which their places are found.
ghost use Rattle.std.specs.Prelude.{◌≡◌, ◌<◌, ◌≤◌, [], ◌∷◌, ◌++◌, length, position, not};
ghost use Rattle.std.specs.Prelude.{if◌then◌else◌, slice_get, Some, IfOk, OnErr, ℕ, List};
ghost use Rattle.std.specs.List.{AllByRecursion};
ghost use Rattle.std.specs.Str.{bytes_eq};
ghost use Rattle.format_parts.specs.Names.{has_word, IsText, names_in};

use indexmap::IndexSet;
use revc_base::{Memory, Text};
use std::alloc::Global;
use std::marker::Model;

/// Different names, in their order, lent by the text. Contracts see their list.
#[derive(Drop)]
pub struct Names<'t> {
    set: IndexSet<&'t [u8]>,
}

impl<'t> Model for Names<'t> {
    ghost Value = { List (List ℕ) };

    ghost view = { λ n. names_in n.set.keys };
}

impl<'t> Names<'t> {
    /// No name. It takes no memory.
    pub fn new(alloc: Global) -> Names<'t>
        ensures { result ≡ [] }
    {
        Names {
            set: IndexSet::new(alloc),
        }
    }

    /// The number of names. It takes no memory.
    pub fn len(&self) -> usize
        ensures { result ≡ length self.now }
    {
        self.set.len()
    }

    /// Puts a new name last, and says whether it is new. After want of memory the names are
    /// unchanged.
    pub fn push(&mut self, name: &'t [u8]) -> Result<bool, Memory>
        ensures added { IfOk result (λ added. added ≡ not (has_word self.old name.now)) }
        ensures names { IfOk result (λ added. self.new
            ≡ (if added then self.old ++ name.now ∷ [] else self.old)) }
        ensures err { OnErr result (self.new ≡ self.old) }
    {
        Ok(self.set.insert(name)?)
    }

    /// Whether a name is among them. It takes no memory.
    pub fn has(&self, name: &[u8]) -> bool
        ensures { result ≡ has_word self.now name.now }
    {
        self.set.contains(name)
    }

    /// The place of a name, from 0. It takes no memory.
    pub fn place(&self, name: &[u8]) -> Option<usize>
        ensures { result ≡ position (bytes_eq name.now) self.now }
    {
        self.set.get_index_of(name)
    }

    /// The name at a place. It takes no memory.
    pub fn at(&self, place: usize) -> &'t [u8]
        requires { place < length self.now }
        ensures { slice_get self.now place ≡ Some result.now }
    {
        self.set.as_slice()[place]
    }

    /// A copy of each name.
    pub fn texts(&self, alloc: Global) -> Result<Vec<Text>, Memory>
        requires { AllByRecursion IsText self.now }
        ensures { IfOk result (λ texts. texts.items ≡ self.now) }
    {
        let mut texts = Vec::with_capacity(alloc, self.set.len())?;
        for name in self.set.as_slice() {
            texts.push(Text::new(alloc, name)?)?;
        }
        Ok(texts)
    }
}
