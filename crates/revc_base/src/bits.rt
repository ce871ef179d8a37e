// Bit words.
ghost use Rattle.std.specs.List.{AllByRecursion};
ghost use Rattle.std.specs.Prelude.{◌≡◌, ◌↔◌, ◌==◌, ◌<◌, ◌^◌, length, map, IfOk, IfSome, IfNone};
ghost use Rattle.std.specs.Prelude.{IsErrOf, IsTrue, Bool, List};
ghost use Rattle.revc_base.specs.declared.bits.BitsFault.TheVariants as faults;
ghost use Rattle.revc_base.specs.Bits.{IsDigit, IsWordOf, IsFirstOther};

use crate::{Memory, WantOfMemory};
use std::alloc::Global;
use std::marker::Model;

/// A list of bits. Contracts see it as that list.
#[derive(Debug, Drop)]
pub struct Bits {
    bits: Vec<bool>,
}

impl Model for Bits {
    ghost Value = { List Bool };

    ghost view = { λ b. b.bits.items };
}

/// Why a word is no bit word.
#[derive(Clone, Copy, Debug, PartialEq, Eq)]
pub enum BitsFault {
    /// The byte at this place, counted from 0, is the first that is neither `0` nor `1`.
    BadDigit { at: u32 },
    /// There was no memory left.
    Memory(Memory),
}

impl<M: WantOfMemory> From<M> for BitsFault {
    ghost from_gives = { λ _ e. e ≡ faults.Memory _ };

    fn from(want: M) -> BitsFault {
        BitsFault::Memory(want.memory())
    }
}

impl Bits {
    /// The list of these bits. It takes no memory.
    pub fn new(bits: Vec<bool>) -> Bits
        ensures { result ≡ bits.items }
    {
        Bits { bits }
    }

    /// The bits, in their order. It takes no memory.
    pub fn bits(&self) -> &[bool]
        ensures { result.now ≡ self.now }
    {
        &self.bits
    }

    /// One bit for each byte of the word, true for `1`. `BadDigit` names the first byte that is
    /// neither `0` nor `1`; memory is taken only where there is none.
    pub fn from_word(alloc: Global, word: &str) -> Result<Bits, BitsFault>
        requires { length word.now < 2 ^ 32 }
        ensures ok { IfOk result (λ bits. IsWordOf word.now bits) }
        ensures bad { (at : _) → IsErrOf result (BitsFault.BadDigit at) → IsFirstOther word.now at }
        ensures named { (at : _) → IsFirstOther word.now at
            → IsErrOf result (BitsFault.BadDigit at) }
    {
        let digits = word.as_bytes();
        if let Some(at) = first_other(digits) {
            return Err(BitsFault::BadDigit { at });
        }
        let bits = bits_of(alloc, digits)?;
        Ok(Bits { bits })
    }
}

// Whether a byte is the digit 0 or 1.
fn is_digit(byte: u8) -> bool
    ensures { IsTrue result ↔ IsDigit byte }
{
    byte == b'0' || byte == b'1'
}

// The place of the first byte that is neither 0 nor 1.
#[tactic(auto, using(list_facts::proofs::FirstLemmas::first_without))]
fn first_other(word: &[u8]) -> Option<u32>
    requires { length word.now < 2 ^ 32 }
    ensures found { IfSome result (λ at. IsFirstOther word.now at) }
    ensures none { IfNone result (AllByRecursion IsDigit word.now) }
{
    for (at, byte) in word.iter().enumerate() {
        if !is_digit(*byte) {
            return Some(at as u32);
        }
    }
    None
}

// True for each byte that is 1.
fn bits_of(alloc: Global, word: &[u8]) -> Result<Vec<bool>, Memory>
    ensures { IfOk result (λ bits. bits.items ≡ map (λ byte. byte == 49) word.now) }
{
    Ok(word.iter().map(|byte| *byte == b'1').collect(alloc)?)
}
