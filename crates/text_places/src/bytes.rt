// The kinds of bytes in a text, and the runs that they make at its front.
ghost use Rattle.std.specs.Prelude.{◌≡◌};
ghost use Rattle.std.specs.Char.{is_ascii_digit};
ghost use Rattle.std.specs.List.{prefix_len};
ghost use Rattle.text_places.specs.Bytes.{is_blank, is_letter, is_name_byte};

/// Whether the byte is a space, a tab, a carriage return or a line feed.
pub fn is_blank(byte: u8) -> bool
    ensures { result ≡ is_blank byte }
{
    matches!(byte, b' ' | b'\t' | b'\r' | b'\n')
}

/// Whether the byte is a letter of ASCII or `_`.
pub fn is_letter(byte: u8) -> bool
    ensures { result ≡ is_letter byte }
{
    byte.is_ascii_alphabetic() || byte == b'_'
}

/// Whether a name goes on with the byte: a letter, `_` or a digit.
pub fn is_name_byte(byte: u8) -> bool
    ensures { result ≡ is_name_byte byte }
{
    is_letter(byte) || byte.is_ascii_digit()
}

/// How many letters, digits and `_` stand at the front of the text.
pub fn name_len(text: &[u8]) -> usize
    ensures { result ≡ prefix_len is_name_byte text.now }
{
    text.iter().take_while(|byte| is_name_byte(**byte)).count()
}

/// How many digits stand at the front of the text.
pub fn digits_len(text: &[u8]) -> usize
    ensures { result ≡ prefix_len is_ascii_digit text.now }
{
    text.iter().take_while(|byte| byte.is_ascii_digit()).count()
}
