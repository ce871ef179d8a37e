// Lists that tables find their entries by.
ghost use Rattle.std.specs.Prelude.{◌≡◌, List};
ghost use Rattle.std.specs.Cmp.Lexicographic.{pointwise, lists_per, lists_equiv};
ghost use Rattle.std.specs.Hash.{slice, items_Alike};

use std::alloc::Global;
use std::hash::{Hash, Hasher};
use std::marker::Model;

/// A list that may be a key of a table. Contracts see it as that list.
#[derive(Drop)]
pub struct Key<T> {
    items: Vec<T>,
}

impl<T> Model for Key<T> {
    ghost Value = { List T };

    ghost view = { λ k. k.items.items };
}

impl<T> Key<T> {
    /// The list of these. It takes no memory.
    pub fn new(items: Vec<T>) -> Key<T>
        ensures { result ≡ items.items }
    {
        Key { items }
    }

    /// The items, in their order. It takes no memory.
    pub fn items(&self) -> &[T]
        ensures { result.now ≡ self.now }
    {
        &self.items
    }

    /// Where the list takes its memory from.
    pub fn allocator(&self) -> &Global {
        self.items.allocator()
    }
}

// Two keys are equal exactly where their items are.
impl<T: PartialEq> PartialEq for Key<T> {
    ghost eq = { pointwise T.eq };

    ghost laws = { lists_per T.laws };

    fn eq(&self, other: &Key<T>) -> bool {
        self.items() == other.items()
    }
}

impl<T: Eq> Eq for Key<T> {
    ghost laws = { lists_equiv T.Eq.laws };
}

// A key feeds a hasher what its items feed it.
impl<T: Hash> Hash for Key<T> {
    ghost hash_input = { slice T.hash_input };

    ghost respects_eq = { (items_Alike (record { fed = T.respects_eq })).fed };

    fn hash<H: Hasher>(&self, state: &mut H) {
        self.items().hash(state);
    }
}
