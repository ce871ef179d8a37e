// Pieces that are put through a buffer, and the whole texts that are made of them.
ghost use Rattle.std.specs.Prelude.{◌≡◌, ◌<◌, ℕ, List, length, slice_get, Some, ⊤, [], ◌∷◌, ◌++◌};
ghost use Rattle.std.specs.Fmt.{decimal};
ghost use Rattle.std.specs.List.{concat};
ghost use Rattle.revc_io.specs.Faults.{HasCause};
ghost use Rattle.revc_io.specs.Passing.{Gathers, Writes};

use crate::{Buffer, Failed, Sink, put_decimal};

/// A text that is put through a buffer: bytes, a number, or such texts one behind the other.
pub trait Piece: Copy {
    // Where it can be put.
    ghost can_put: { Self → Type 0 };

    // Its bytes.
    ghost bytes: { Self → List ℕ };

    /// Puts its bytes through the buffer. It takes no memory.
    fn put<K: Sink>(self, buffer: &mut Buffer, out: &mut K) -> Result<(), Failed>
        requires { can_put self }
        ensures bytes { Gathers result (K.held out.old) (K.held out.new) buffer.old buffer.new
            (bytes self) }
        ensures cause { HasCause (K.faults out.old) (K.faults out.new) result };
}

impl Piece for &[u8] {
    ghost can_put = { λ _. ⊤ };

    ghost bytes = { λ piece. piece.now };

    fn put<K: Sink>(self, buffer: &mut Buffer, out: &mut K) -> Result<(), Failed> {
        buffer.put(out, self)
    }
}

impl<const N: usize> Piece for &[u8; N] {
    ghost can_put = { λ _. ⊤ };

    ghost bytes = { λ piece. piece.now };

    fn put<K: Sink>(self, buffer: &mut Buffer, out: &mut K) -> Result<(), Failed> {
        buffer.put(out, self)
    }
}

/// Bytes that stand in the program itself. A type with these in place of a `&'static [u8]` has no
/// lifetime.
#[derive(Clone, Copy)]
pub struct Literal(pub &'static [u8]);

impl Piece for Literal {
    ghost can_put = { λ _. ⊤ };

    ghost bytes = { λ literal. literal.0.now };

    fn put<K: Sink>(self, buffer: &mut Buffer, out: &mut K) -> Result<(), Failed> {
        buffer.put(out, self.0)
    }
}

/// One byte.
#[derive(Clone, Copy)]
pub struct Byte(pub u8);

impl Piece for Byte {
    ghost can_put = { λ _. ⊤ };

    ghost bytes = { λ byte. byte.0 ∷ [] };

    fn put<K: Sink>(self, buffer: &mut Buffer, out: &mut K) -> Result<(), Failed> {
        buffer.put(out, &[self.0])
    }
}

/// A number, whose text is its decimal digits without leading zeros.
#[derive(Clone, Copy)]
pub struct Decimal(pub u64);

impl Piece for Decimal {
    ghost can_put = { λ _. ⊤ };

    ghost bytes = { λ number. decimal number.0 };

    fn put<K: Sink>(self, buffer: &mut Buffer, out: &mut K) -> Result<(), Failed> {
        put_decimal(buffer, out, self.0)
    }
}

impl<A: Piece, B: Piece> Piece for (A, B) {
    ghost can_put = { λ texts. A.can_put texts.0 × B.can_put texts.1 };

    ghost bytes = { λ texts. A.bytes texts.0 ++ B.bytes texts.1 };

    fn put<K: Sink>(self, buffer: &mut Buffer, out: &mut K) -> Result<(), Failed> {
        let (first, second) = self;
        first.put(buffer, out)?;
        second.put(buffer, out)
    }
}

impl<A: Piece, B: Piece, C: Piece> Piece for (A, B, C) {
    ghost can_put = { λ texts. A.can_put texts.0 × B.can_put texts.1 × C.can_put texts.2 };

    ghost bytes = { λ texts. A.bytes texts.0 ++ (B.bytes texts.1 ++ C.bytes texts.2) };

    fn put<K: Sink>(self, buffer: &mut Buffer, out: &mut K) -> Result<(), Failed> {
        let (first, second, third) = self;
        (first, (second, third)).put(buffer, out)
    }
}

/// Writes a whole text. Where it fails, the sink took a front of it. It takes no memory.
pub fn write_whole<T: Piece, K: Sink>(text: T, out: &mut K) -> Result<(), Failed>
    requires { T.can_put text }
    ensures bytes { Writes result (K.held out.old) (K.held out.new) (T.bytes text) }
    ensures cause { HasCause (K.faults out.old) (K.faults out.new) result }
{
    let mut buffer = Buffer::new();
    text.put(&mut buffer, out)?;
    buffer.finish(out)
}

/// Pieces of a text, each with its place.
pub trait Pieces: Copy {
    /// What stands at a place.
    type Item: Piece;

    // Where they can be put.
    ghost can_put_each: { Self → Type 0 };

    // The bytes of each.
    ghost list: { Self → List (List ℕ) };

    /// The number of pieces.
    fn len(self) -> usize
        requires { can_put_each self }
        ensures { result ≡ length (list self) };

    /// The piece at a place.
    fn at(self, place: usize) -> Self::Item
        requires can { can_put_each self }
        requires in_range { place < length (list self) }
        ensures can { Self.Item.can_put result }
        ensures bytes { slice_get (list self) place ≡ Some (Self.Item.bytes result) };
}

/// The text of pieces one behind the other.
#[derive(Clone, Copy)]
pub struct Each<P>(pub P);

impl<P: Pieces> Piece for Each<P> {
    ghost can_put = { λ each. P.can_put_each each.0 };

    ghost bytes = { λ each. concat (P.list each.0) };

    fn put<K: Sink>(self, buffer: &mut Buffer, out: &mut K) -> Result<(), Failed> {
        for place in 0..self.0.len() {
            self.0.at(place).put(buffer, out)?;
        }
        Ok(())
    }
}
