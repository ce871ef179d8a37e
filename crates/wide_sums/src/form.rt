// Forms: what a sum is in a row of a window.
ghost use Rattle.std.specs.Prelude.{◌≡◌, ◌∷◌, [], IfOk, IfSome};
ghost use Rattle.wide_sums.specs.inside.Forms.{IsBit, IsFormSum, IsOnes, IsReduced, IsSameForm};

use bit_sums::apart;
use dependency_graph::Base;
use revc_base::Memory;
use std::alloc::Global;

/// The sum of some bits, and of a bit that a row decides: the word has it for each of 64 rows.
#[derive(Drop)]
pub struct Form {
    pub bits: Vec<Base>,
    pub word: u64,
}

impl Form {
    /// The constant 0. It takes no memory.
    pub fn zero(alloc: Global) -> Form
        ensures bits { result.bits.items ≡ [] }
        ensures word { result.word ≡ 0 }
    {
        Form {
            bits: Vec::new(alloc),
            word: 0,
        }
    }

    /// A bit alone.
    pub fn bit(alloc: Global, base: Base) -> Result<Form, Memory>
        ensures { IfOk result (IsBit base) }
    {
        Ok(Form {
            bits: Vec::from_slice(alloc, &[base])?,
            word: 0,
        })
    }

    /// The same form.
    pub fn copy(&self, alloc: Global) -> Result<Form, Memory>
        ensures { IfOk result (IsSameForm self.now) }
    {
        Ok(Form {
            bits: Vec::from_slice(alloc, &self.bits)?,
            word: self.word,
        })
    }

    /// The sum of both.
    pub fn plus(&self, alloc: Global, other: &Form) -> Result<Form, Memory>
        ensures { IfOk result (IsFormSum self.now other.now) }
    {
        Ok(Form {
            bits: apart(alloc, &self.bits, &other.bits)?,
            word: self.word ^ other.word,
        })
    }

    /// The form with each axis added whose last bit it has: an axis is 0 in its rows.
    pub fn reduced(self, alloc: Global, axes: &[Form]) -> Result<Form, Memory>
        ensures { IfOk result (IsReduced axes.now self) }
    {
        let mut form = self;
        for axis in axes {
            form = form.reduced_by(alloc, axis)?;
        }
        Ok(form)
    }

    // The form, or the sum with an axis where it has that one's last bit.
    fn reduced_by(self, alloc: Global, axis: &Form) -> Result<Form, Memory>
        ensures { IfOk result (IsReduced (axis.now ∷ []) self) }
    {
        match axis.bits.last() {
            Some(last) if self.bits.contains(last) => self.plus(alloc, axis),
            _ => Ok(self),
        }
    }

    /// The word, where there are no bits. It takes no memory.
    pub fn word_alone(&self) -> Option<u64>
        ensures { IfSome result (λ word. (self.now.bits.items ≡ []) × (word ≡ self.now.word)) }
    {
        if self.bits.is_empty() {
            Some(self.word)
        } else {
            None
        }
    }
}

/// The word that has a bit in each row.
pub fn ones(bit: bool) -> u64
    ensures { IsOnes bit result }
{
    if bit { u64::MAX } else { 0 }
}
