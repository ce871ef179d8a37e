// Known products.
ghost use Rattle.std.specs.Prelude.{◌≡◌, IfOk};

use linear_forms::Form;
use revc_base::Memory;

/// Two factors, and the sum that is their product.
#[derive(Drop)]
pub struct Known {
    pub first: Form,
    pub second: Form,
    pub value: Form,
    /// Whether the value is an atom that was made for this product.
    pub made: bool,
}

impl Known {
    /// How many words it holds.
    pub fn len(&self) -> usize {
        let factors = self.first.len().saturating_add(self.second.len());
        factors.saturating_add(self.value.len())
    }
}

// The record of a product.
pub fn known_of(first: &Form, second: &Form, value: &Form, made: bool) -> Result<Known, Memory>
    ensures { IfOk result (λ known. known ≡ record {
      first = first.now;
      second = second.now;
      value = value.now;
      made = made;
    }) }
{
    let first = first.copy()?;
    let second = second.copy()?;
    let value = value.copy()?;
    Ok(Known {
        first,
        second,
        value,
        made,
    })
}
