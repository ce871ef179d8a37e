// The words of statements, and tests of words.
ghost use Rattle.std.specs.Prelude.{◌≡◌, ◌<◌, length};
ghost use Rattle.std.specs.List.{list_any};
ghost use Rattle.std.specs.Str.{bytes_eq};
ghost use Rattle.qasm_format.specs.inside.Tests.{flip_of, is_free, is_include, is_kept};
ghost use Rattle.qasm_format.specs.inside.Tests.{kind_of, use_of};

// A register of qubits, or of bits.
#[derive(Clone, Copy)]
pub enum RegisterKind {
    Qubits,
    Bits,
}

// What arguments are for: a barrier, or a flip under so many controls.
#[derive(Clone, Copy)]
pub enum Use {
    Barrier,
    Flip(u32),
}

// Whether a word is the wanted one.
pub fn is_word(word: &[u8], wanted: &[u8]) -> bool
    ensures { result ≡ bytes_eq word.now wanted.now }
{
    word == wanted
}

// Whether a word begins the include, where it stood or did not.
pub fn is_include(word: &[u8], included: bool) -> bool
    ensures { result ≡ is_include word.now included }
{
    !included && is_word(word, b"include")
}

// The kind of register that a word declares.
pub fn kind_of(word: &[u8]) -> Option<RegisterKind>
    ensures { result ≡ kind_of word.now }
{
    if is_word(word, b"qreg") {
        return Some(RegisterKind::Qubits);
    }
    if is_word(word, b"creg") {
        return Some(RegisterKind::Bits);
    }
    None
}

// What the arguments behind a word are for, where the include stood or did not.
pub fn use_of(word: &[u8], included: bool) -> Option<Use>
    ensures { result ≡ use_of word.now included }
{
    if is_word(word, b"barrier") {
        return Some(Use::Barrier);
    }
    if is_word(word, b"CX") {
        return Some(Use::Flip(1));
    }
    if !included {
        return None;
    }
    flip_of(word)
}

// The gates that stand in the included file.
fn flip_of(word: &[u8]) -> Option<Use>
    ensures { result ≡ flip_of word.now }
{
    if is_word(word, b"x") {
        return Some(Use::Flip(0));
    }
    if is_word(word, b"cx") {
        return Some(Use::Flip(1));
    }
    if is_word(word, b"ccx") {
        return Some(Use::Flip(2));
    }
    None
}

// Whether an identifier of at most 64 bytes may name a register.
pub fn is_free(word: &[u8]) -> bool
    requires { 0 < length word.now }
    ensures { result ≡ is_free word.now }
{
    word[0].is_ascii_lowercase() && !is_kept(word)
}

// Whether a word names no register.
fn is_kept(word: &[u8]) -> bool
    ensures { result ≡ is_kept word.now }
{
    is_among(
        word,
        &[
            b"barrier", b"creg", b"gate", b"if", b"include", b"measure", b"opaque", b"qreg",
            b"reset", b"pi",
        ],
    )
}

fn is_among(word: &[u8], words: &[&[u8]]) -> bool
    ensures { result ≡ list_any (λ other. bytes_eq word.now other.now) words.now }
{
    words.iter().any(|other| is_word(word, other))
}
