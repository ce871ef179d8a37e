// The tokens of a text, beside it: 16 bytes each, and no bytes of a name twice.
ghost use Rattle.std.specs.Prelude.{◌≡◌, ◌+◌, ◌<◌, ◌≤◌, [], length, take, drop, slice_index_or};
ghost use Rattle.std.specs.Prelude.{IfSome, IfNone};
ghost use Rattle.revs_lexer.specs.declared.token.Token.{Token};
ghost use Rattle.revs_lexer.specs.Rest.{left, Begins, BeginsName, NoName};
ghost use Rattle.revs_lexer.specs.inside.Packed.{tokens_of, AreWithin};

use crate::Kind;
use revc_base::Place;
use std::alloc::Global;
use std::marker::Model;

/// A token without the bytes of its name.
#[derive(Clone, Copy)]
pub struct Packed {
    pub kind: Kind,
    pub at: Place,
}

const _: () = prove!(size_of::<Packed>() == 16);

/// The tokens of a text, which it borrows for the names. Contracts see their list.
#[derive(Drop)]
pub struct TokenList<'t> {
    text: &'t [u8],
    packed: Vec<Packed>,
}

impl<'t> Model for TokenList<'t> {
    ghost use Rattle.std.specs.Prelude.{List};
    ghost use Rattle.revs_lexer.specs.declared.token.Token.{Token};
    ghost use Rattle.revs_lexer.specs.inside.Packed.{tokens_of, AreWithin};

    ghost Value = { List Token };

    ghost view = { λ list. tokens_of list.text.now list.packed.items };

    ghost invariant = { λ list. AreWithin list.text.now list.packed.items };
}

impl<'t> TokenList<'t> {
    // The tokens that stand so in the text.
    pub(crate) fn new(text: &'t [u8], packed: Vec<Packed>) -> TokenList<'t>
        requires { AreWithin text.now packed.items }
        ensures { result ≡ tokens_of text.now packed.items }
    {
        TokenList { text, packed }
    }

    /// How many tokens there are.
    pub fn len(&self) -> usize
        ensures { result ≡ length self.now }
    {
        self.packed.len()
    }

    /// The place of the token with this number, counted from 0.
    pub fn place(&self, number: usize) -> Place
        requires { number < length self.now }
        ensures { (other : Token) → result ≡ (slice_index_or self.now number other).at }
    {
        self.packed[number].at
    }

    /// All tokens.
    pub fn all(&'t self) -> Rest<'t>
        ensures { left result ≡ self.now }
    {
        Rest {
            list: self,
            from: 0,
        }
    }
}

/// The tokens of a list from one of them on. Contracts name its fields, by `left`.
#[derive(Clone, Copy)]
pub struct Rest<'t> {
    pub list: &'t TokenList<'t>,
    pub from: usize,
}

impl<'t> Rest<'t> {
    /// How many tokens are left.
    pub fn len(self) -> usize
        ensures { result ≡ length (left self.entry) }
    {
        self.list.len().saturating_sub(self.from)
    }

    /// The allocator of the list.
    pub fn allocator(self) -> Global {
        let list = self.list;
        *list.packed.allocator()
    }

    /// The first token, and the tokens behind it.
    pub fn split_first(self) -> Option<(&'t Packed, Rest<'t>)>
        ensures found { IfSome result (λ first. Begins (left self.entry) first.0.now.kind
            first.0.now.at (left first.1)) }
        ensures none { IfNone result (left self.entry ≡ []) }
    {
        let list = self.list;
        let first = list.packed.get(self.from)?;
        Some((
            first,
            Rest {
                list,
                from: self.from + 1,
            },
        ))
    }

    /// The bytes and the place of the name that stands first, and the tokens behind it.
    pub fn split_name(self) -> Option<(&'t [u8], Place, Rest<'t>)>
        ensures found { IfSome result (λ name. BeginsName (left self.entry) name.0.now name.1
            (left name.2)) }
        ensures none { IfNone result (NoName (left self.entry)) }
    {
        let list = self.list;
        let first = list.packed.get(self.from)?;
        let Kind::Name { length, start } = first.kind else {
            return None;
        };
        Some((
            part(list.text, start, length),
            first.at,
            Rest {
                list,
                from: self.from + 1,
            },
        ))
    }
}

// So many bytes that begin at this byte of the text, counted from 0.
fn part(text: &[u8], start: u32, len: u8) -> &[u8]
    requires { start + len ≤ length text.now }
    ensures { result.now ≡ take len (drop start text.now) }
{
    let (_, behind) = text.split_at(start as usize);
    let (bytes, _) = behind.split_at(usize::from(len));
    bytes
}
