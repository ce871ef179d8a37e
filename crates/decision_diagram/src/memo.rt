// What one call has flipped so far: from operands to results.
ghost use Rattle.std.specs.Prelude.{◌≡◌, ◌≤◌, ◌<◌, ◌⊎◌, length, [], Some};
ghost use Rattle.indexmap.specs.IndexMap.{spare};
ghost use Rattle.decision_diagram.specs.declared.memo.TheConstants.{MOST_RESULTS};
ghost use Rattle.decision_diagram.specs.inside.Memos.{recalled_from};
ghost use Rattle.decision_diagram.specs.inside.Memos.{IsEmptiedWhereFull, KeepsOrNotes};

use crate::node::Dd;
use indexmap::IndexMap;

/// The most results that a memo holds. One that is full is emptied before the next is noted.
pub const MOST_RESULTS: usize = 1_000_000;

// The number that is flipped, and the two under which it is.
#[derive(Clone, Copy, PartialEq, Eq, Hash)]
pub struct Operands {
    pub target: Dd,
    pub left: Dd,
    pub right: Dd,
}

// The result for these operands, where it is known.
pub fn recalled(memo: &IndexMap<Operands, Dd>, operands: &Operands) -> Option<Dd>
    ensures { result ≡ recalled_from memo.now.entries operands.now }
{
    memo.get(operands).copied()
}

// Notes a result, in an emptied memo exactly where it was full. Where the memo gets no memory
// nothing is noted.
pub fn note(memo: &mut IndexMap<Operands, Dd>, operands: &Operands, flipped: Dd)
    requires { length memo.old.entries ≤ MOST_RESULTS }
    ensures most { length memo.new.entries ≤ MOST_RESULTS }
    ensures noted { KeepsOrNotes operands.now flipped memo.old.entries memo.new.entries }
    ensures room { 0 < spare memo.old → recalled_from memo.new.entries operands.now ≡ Some flipped }
{
    make_room(memo);
    let _ = memo.insert(*operands, flipped);
}

// Empties a memo that is full.
fn make_room(memo: &mut IndexMap<Operands, Dd>)
    requires { length memo.old.entries ≤ MOST_RESULTS }
    ensures few { length memo.new.entries < MOST_RESULTS }
    ensures kept { IsEmptiedWhereFull memo.old.entries memo.new.entries }
    ensures room { spare memo.old ≤ spare memo.new }
{
    if memo.len() == MOST_RESULTS {
        memo.clear();
    }
}
