// Registers as lists of locations.
ghost use Rattle.std.specs.Prelude.{◌≡◌, ◌+◌, ◌-◌, ◌<◌, ◌≤◌, ◌++◌, ◌↔◌, length, take, drop};
ghost use Rattle.std.specs.Prelude.{slice_get, IfOk, IsErrOf};
ghost use Rattle.array_shapes.specs.declared.shapes.ShapeFault.TheVariants as faults;
ghost use Rattle.revs_terms.specs.declared.limits.TheConstants.{MOST_PLACES};

use revc_base::{Memory, WantOfMemory};
use revs_terms::limits::MOST_PLACES;
use std::alloc::Global;

/// Why a call makes no register.
#[derive(Clone, Copy, Debug, PartialEq, Eq)]
pub enum ShapeFault {
    /// The places of a slice are not in order, or not in the register.
    Slice,
    /// The number of a rotation is not below the length.
    Rotate,
    /// The register would have more than 4,096 places.
    Length,
    /// Want of memory.
    Memory(Memory),
}

impl<M: WantOfMemory> From<M> for ShapeFault {
    ghost from_gives = { λ _ e. e ≡ faults.Memory _ };

    fn from(want: M) -> ShapeFault {
        ShapeFault::Memory(want.memory())
    }
}

/// The location at place `i`, counted from 0, and `None` exactly where `i` is not below the length.
/// It takes no memory.
pub fn index(r: &[u32], i: u32) -> Option<u32>
    ensures { result ≡ slice_get r.now i }
{
    r.get(i as usize).copied()
}

/// The places `i` to `j`. `Slice` exactly where not `i <= j < length`.
pub fn slice(alloc: Global, r: &[u32], i: u32, j: u32) -> Result<Vec<u32>, ShapeFault>
    ensures ok { IfOk result (λ made. made.items ≡ take (j + 1 - i) (drop i r.now)) }
    ensures slice { IsErrOf result ShapeFault.Slice ↔ ¬ ((i ≤ j) × (j < length r.now)) }
    ensures no_rotate { ¬ IsErrOf result ShapeFault.Rotate }
    ensures no_length { ¬ IsErrOf result ShapeFault.Length }
{
    let (from, to) = (i as usize, j as usize);
    if to < from || r.len() <= to {
        return Err(ShapeFault::Slice);
    }
    let places = &r[from..to + 1];
    Ok(places.to_vec(alloc)?)
}

/// The places of `a`, then those of `b`. `Length` exactly where they are more than 4,096.
pub fn append(alloc: Global, a: &[u32], b: &[u32]) -> Result<Vec<u32>, ShapeFault>
    ensures ok { IfOk result (λ made. made.items ≡ a.now ++ b.now) }
    ensures length { IsErrOf result ShapeFault.Length ↔
        (MOST_PLACES < length a.now + length b.now) }
    ensures no_slice { ¬ IsErrOf result ShapeFault.Slice }
    ensures no_rotate { ¬ IsErrOf result ShapeFault.Rotate }
{
    if a.len() + b.len() > MOST_PLACES {
        return Err(ShapeFault::Length);
    }
    joined(alloc, a, b)
}

/// The places `i` to the last, then 0 to `i - 1`. `Rotate` exactly where `i` is not below the
/// length.
pub fn rotate(alloc: Global, i: u32, r: &[u32]) -> Result<Vec<u32>, ShapeFault>
    ensures ok { IfOk result (λ made. made.items ≡ drop i r.now ++ take i r.now) }
    ensures rotate { IsErrOf result ShapeFault.Rotate ↔ (length r.now ≤ i) }
    ensures no_slice { ¬ IsErrOf result ShapeFault.Slice }
    ensures no_length { ¬ IsErrOf result ShapeFault.Length }
{
    let by = i as usize;
    if r.len() <= by {
        return Err(ShapeFault::Rotate);
    }
    let (front, back) = r.split_at(by);
    joined(alloc, back, front)
}

// The places of `a`, then those of `b`.
fn joined(alloc: Global, a: &[u32], b: &[u32]) -> Result<Vec<u32>, ShapeFault>
    ensures ok { IfOk result (λ made. made.items ≡ a.now ++ b.now) }
    ensures no_slice { ¬ IsErrOf result ShapeFault.Slice }
    ensures no_rotate { ¬ IsErrOf result ShapeFault.Rotate }
    ensures no_length { ¬ IsErrOf result ShapeFault.Length }
{
    let mut made = a.to_vec(alloc)?;
    made.extend_from_slice(b)?;
    Ok(made)
}
