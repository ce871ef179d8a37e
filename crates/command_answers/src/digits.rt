// Bits as digits, and numbers in lines. Nothing here takes memory.
ghost use Rattle.std.specs.Prelude.{◌≡◌, ◌↔◌, ◌++◌, IsTrue, if◌then◌else◌, ⊤, [], ◌∷◌, map};
ghost use Rattle.std.specs.Fmt.{decimal};
ghost use Rattle.std.specs.List.{flat_map};
ghost use Rattle.revc_io.specs.Faults.{HasCause};
ghost use Rattle.revc_io.specs.Passing.{Writes};
ghost use Rattle.command_answers.specs.BitWords.{IsInputWord};
ghost use Rattle.command_answers.specs.Lines.{bits_text, number_line, digits_of};

use revc_base::Bits;
use revc_io::{Buffer, Byte, Decimal, Each, Failed, Piece, Pieces, Sink, write_whole};

/// Writes bits as digits, and a line feed. Where it fails, the sink took a front of the text.
pub fn write_digits<K: Sink>(bits: &[bool], out: &mut K) -> Result<(), Failed>
    ensures bytes { Writes result (K.held out.old) (K.held out.new) (bits_text bits.now) }
    ensures cause { HasCause (K.faults out.old) (K.faults out.new) result }
{
    write_whole(BitLine(bits), out)
}

/// Writes lists of bits as digits, a line for each. Where it fails, the sink took a front of the
/// text.
pub fn write_lines<K: Sink>(lines: &[Bits], out: &mut K) -> Result<(), Failed>
    ensures bytes { Writes result (K.held out.old) (K.held out.new)
        (flat_map bits_text lines.now) }
    ensures cause { HasCause (K.faults out.old) (K.faults out.new) result }
{
    write_whole(Each(BitLines(lines)), out)
}

/// Writes a decimal number between two pieces of text. Where it fails, the sink took a front of
/// the whole.
pub fn write_number<K: Sink>(
    out: &mut K,
    head: &[u8],
    number: u64,
    tail: &[u8],
) -> Result<(), Failed>
    ensures bytes { Writes result (K.held out.old) (K.held out.new)
        (head.now ++ (decimal number ++ tail.now)) }
    ensures cause { HasCause (K.faults out.old) (K.faults out.new) result }
{
    write_whole((head, Decimal(number), tail), out)
}

/// Writes numbers behind words, a line for each. Where it fails, the sink took a front of the text.
pub fn write_numbers<K: Sink>(lines: &[(&[u8], u64)], out: &mut K) -> Result<(), Failed>
    ensures bytes { Writes result (K.held out.old) (K.held out.new)
        (flat_map (λ line. number_line line.0.now line.1) lines.now) }
    ensures cause { HasCause (K.faults out.old) (K.faults out.new) result }
{
    write_whole(Each(NumberLines(lines)), out)
}

/// Bits as digits, and a line feed.
#[derive(Clone, Copy)]
pub(crate) struct BitLine<'a>(pub &'a [bool]);

impl Piece for BitLine<'_> {
    ghost can_put = { λ _. ⊤ };

    ghost bytes = { λ line. bits_text line.0.now };

    fn put<K: Sink>(self, buffer: &mut Buffer, out: &mut K) -> Result<(), Failed> {
        (Each(Digits(self.0)), b"\n").put(buffer, out)
    }
}

// The digits of bits.
#[derive(Clone, Copy)]
struct Digits<'a>(&'a [bool]);

impl Pieces for Digits<'_> {
    type Item = Byte;

    ghost can_put_each = { λ _. ⊤ };

    ghost list = { λ digits. map (λ byte. byte ∷ []) (digits_of digits.0.now) };

    fn len(self) -> usize {
        self.0.len()
    }

    fn at(self, place: usize) -> Byte {
        Byte(digit(self.0[place]))
    }
}

fn digit(bit: bool) -> u8
    ensures { result ≡ (if bit then 49 else 48) }
{
    if bit { b'1' } else { b'0' }
}

// A line for each list of bits.
#[derive(Clone, Copy)]
struct BitLines<'a>(&'a [Bits]);

impl<'a> Pieces for BitLines<'a> {
    type Item = BitLine<'a>;

    ghost can_put_each = { λ _. ⊤ };

    ghost list = { λ lines. map bits_text lines.0.now };

    fn len(self) -> usize {
        self.0.len()
    }

    fn at(self, place: usize) -> BitLine<'a> {
        BitLine(self.0[place].bits())
    }
}

// A line for each word and its number.
#[derive(Clone, Copy)]
struct NumberLines<'a>(&'a [(&'a [u8], u64)]);

impl<'a> Pieces for NumberLines<'a> {
    type Item = (&'a [u8], Decimal, Byte);

    ghost can_put_each = { λ _. ⊤ };

    ghost list = { λ lines. map (λ line. number_line line.0.now line.1) lines.0.now };

    fn len(self) -> usize {
        self.0.len()
    }

    fn at(self, place: usize) -> (&'a [u8], Decimal, Byte) {
        let (word, number) = self.0[place];
        (word, Decimal(number), Byte(b'\n'))
    }
}

/// Whether a word has so many digits 0 and 1, and nothing else. It takes no memory.
pub fn is_input_word(word: &str, inputs: usize) -> bool
    ensures { IsTrue result ↔ IsInputWord inputs word.now }
{
    word.len() == inputs && word.bytes().all(|byte| byte == b'0' || byte == b'1')
}
