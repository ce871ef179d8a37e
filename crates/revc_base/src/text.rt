// A short text, such as a name of a program or of a circuit's line.
ghost use Rattle.std.specs.Prelude.{◌≡◌, ◌≤◌, length, IfOk, nat_eq, ℕ, List};
ghost use Rattle.std.specs.Cmp.{partial_equiv_from_equiv};
ghost use Rattle.std.specs.Cmp.Lexicographic.{pointwise, nat_list_eq_equiv};
ghost use Rattle.std.specs.Cmp.Rules.{hashing};
ghost use Rattle.std.specs.Hash as fed;
ghost use Rattle.std.proofs.Common.{rules};
ghost use Rattle.revc_base.specs.declared.limits.TheConstants.{MOST_NAME_BYTES};
ghost use Rattle.revc_base.specs.declared.text.TheConstants.{MOST_IN_PLACE};
ghost use Rattle.revc_base.specs.inside.Texts.{bytes_of, HasRoom};

use crate::Memory;
use crate::limits::MOST_NAME_BYTES;
use std::alloc::Global;
use std::hash::{Hash, Hasher};
use std::marker::Model;

// The most bytes that stand in place: with their number and the variant they take 16 bytes, as
// those in memory do.
const MOST_IN_PLACE: usize = 14;

/// A text of 1 to 64 bytes, which are any bytes. Contracts see it as the list of its bytes. One of
/// at most 14 bytes takes no memory but its own 16 bytes.
#[derive(Drop)]
pub struct Text {
    kept: Kept,
}

// Where the bytes of a text stand.
#[derive(Drop)]
enum Kept {
    // As many of these.
    InPlace(u8, [u8; MOST_IN_PLACE]),
    InMemory(Box<Vec<u8>>),
}

impl Model for Text {
    ghost Value = { List ℕ };

    ghost view = { λ t. bytes_of t.kept };

    ghost invariant = { λ t. HasRoom t.kept × (1 ≤ length (bytes_of t.kept))
        × (length (bytes_of t.kept) ≤ MOST_NAME_BYTES) };
}

impl Kept {
    // These bytes, in place where they have room there.
    fn of(alloc: Global, bytes: &[u8]) -> Result<Kept, Memory>
        ensures kept { IfOk result (λ kept. bytes_of kept ≡ bytes.now) }
        ensures room { IfOk result HasRoom }
    {
        if bytes.len() <= MOST_IN_PLACE {
            return Ok(Kept::in_place(bytes));
        }
        Ok(Kept::InMemory(Box::new(alloc, Vec::from_slice(alloc, bytes)?)?))
    }

    // These bytes in place.
    fn in_place(bytes: &[u8]) -> Kept
        requires { length bytes.now ≤ MOST_IN_PLACE }
        ensures kept { bytes_of result ≡ bytes.now }
        ensures room { HasRoom result }
    {
        let mut place = [0; MOST_IN_PLACE];
        place[..bytes.len()].copy_from_slice(bytes);
        Kept::InPlace(bytes.len() as u8, place)
    }
}

impl Text {
    /// The most bytes that a text has.
    pub const MOST: usize = MOST_NAME_BYTES;

    /// The text of these bytes, of which there are 1 to 64. It fails only for want of memory.
    pub fn new(alloc: Global, bytes: &[u8]) -> Result<Text, Memory>
        requires some { 1 ≤ length bytes.now }
        requires few { length bytes.now ≤ MOST_NAME_BYTES }
        ensures { IfOk result (λ text. text ≡ bytes.now) }
    {
        Ok(Text {
            kept: Kept::of(alloc, bytes)?,
        })
    }

    /// The bytes of the text. It takes no memory.
    pub fn bytes(&self) -> &[u8]
        ensures bytes { result.now ≡ self.now }
        ensures some { 1 ≤ length self.now }
        ensures few { length self.now ≤ MOST_NAME_BYTES }
    {
        match &self.kept {
            Kept::InPlace(len, bytes) => &bytes[..*len as usize],
            Kept::InMemory(bytes) => bytes,
        }
    }

    /// The same text once more, on the allocator of this one.
    pub fn copy(&self) -> Result<Text, Memory>
        ensures { IfOk result (λ text. text ≡ self.now) }
    {
        match &self.kept {
            Kept::InPlace(len, bytes) => Ok(Text {
                kept: Kept::InPlace(*len, *bytes),
            }),
            Kept::InMemory(bytes) => Text::new(*bytes.allocator(), bytes),
        }
    }
}

// Two texts are equal exactly where their bytes are.
impl PartialEq for Text {
    ghost eq = { pointwise nat_eq };

    ghost laws = { partial_equiv_from_equiv nat_list_eq_equiv };

    fn eq(&self, other: &Text) -> bool {
        self.bytes() == other.bytes()
    }
}

impl Eq for Text {
    ghost laws = { nat_list_eq_equiv };
}

// A text feeds a hasher what its bytes feed it.
impl Hash for Text {
    ghost hash_input = { fed.slice fed.u8 };

    ghost respects_eq = { Prim.search (hashing, rules) };

    fn hash<H: Hasher>(&self, state: &mut H) {
        self.bytes().hash(state);
    }
}
