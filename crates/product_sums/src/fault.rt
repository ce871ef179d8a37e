// Why a table gives no product.
ghost use Rattle.std.specs.Prelude.{◌≡◌};
ghost use Rattle.product_sums.specs.declared.fault.ProductsFault.TheVariants as faults;

use revc_base::{Memory, WantOfMemory};

/// Why a table gives no sum or product.
#[derive(Clone, Copy, Debug, PartialEq, Eq)]
pub enum ProductsFault {
    /// It would take more atoms, steps or words than is allowed.
    Limit,
    /// There was no memory left.
    Memory(Memory),
}

impl<M: WantOfMemory> From<M> for ProductsFault {
    ghost from_gives = { λ _ e. e ≡ faults.Memory _ };

    fn from(want: M) -> ProductsFault {
        ProductsFault::Memory(want.memory())
    }
}
