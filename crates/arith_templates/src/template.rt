// The text of each kind.
ghost use Rattle.std.specs.Prelude.{◌≡◌, ◌≤◌, IfOk};
ghost use Rattle.arith_templates.specs.Texts.{text_of};
ghost use Rattle.arith_templates.specs.declared.kind.Kind.TheVariants.{Mul};

use crate::adder::adder_text;
use crate::limits::{MOST_BITS, MOST_FACTOR};
use crate::product::multiplier;
use crate::ripples::{put_outputs, ripple_text};
use crate::{Kind, difference, increment};
use revc_base::Memory;
use std::alloc::Global;

/// The text of the program of a kind, for numbers of `n` bits, 1 to 200; `by` is the constant of
/// `Mul`, 1 to 9,999, and means nothing to the other kinds. The programs are the ripple-carry
/// adder and its kin, and shift and add (Knuth, The Art of Computer Programming, volume 4A, section
/// 7.1.2). Each line ends with a line feed. The time is linear in the bytes. It answers `Memory`
/// where memory is refused.
pub fn text(alloc: Global, kind: Kind, n: u32, by: u32) -> Result<Vec<u8>, Memory>
    requires some { 1 ≤ n }
    requires few { n ≤ MOST_BITS }
    requires factor { kind ≡ Mul → (1 ≤ by) × (by ≤ MOST_FACTOR) }
    ensures bytes { IfOk result (λ text. text.items ≡ text_of kind n by) }
{
    match kind {
        Kind::Add => adder_text(alloc, n),
        Kind::Sub => ripple_text(
            alloc,
            n,
            |text, n| difference::put_opening(text, n, "let d0 = a.[0] <> b.[0];\n"),
            difference::put_difference_place,
            |text, n| put_outputs(text, "d", n),
        ),
        Kind::Less => ripple_text(
            alloc,
            n,
            |text, n| difference::put_opening(text, n, ""),
            difference::put_borrow,
            difference::put_last_borrow,
        ),
        Kind::Inc => ripple_text(
            alloc,
            n,
            increment::put_incrementer_opening,
            increment::put_increment,
            |text, n| put_outputs(text, "s", n),
        ),
        Kind::Mul => multiplier(alloc, n, by),
    }
}
