// The depths of flips.
ghost use Rattle.std.specs.Prelude.{◌≡◌, ℕ, ◌≤◌, length, slice_index, if◌then◌else◌, IfOk, IsTrue};
ghost use Rattle.mct_circuit.specs.Gates.{lines_of};
ghost use Rattle.mct_circuit.specs.Sizes.{depth_by, greatest_at, has_line};
ghost use Rattle.flip_lists.specs.Flips.{AreFlipsOn, gate_of, gates_of};
ghost use Rattle.flip_orders.specs.inside.Depths.{AreDepthsOf, AreWithin, weight_for};
ghost use Rattle.mct_circuit.specs.Gates.{IsGateOn};

use crate::steps::Goal;
use flip_lists::{Controls, Flip};
use revc_base::Memory;
use std::alloc::Global;

/// The depth and the Toffoli depth of flips.
#[derive(Clone, Copy)]
pub struct Depths {
    pub all: u64,
    pub toffoli: u64,
}

impl Depths {
    /// Those of flips on so many lines. It takes time linear in the flips and lines.
    pub fn of(alloc: Global, lines: u32, flips: &[Flip]) -> Result<Depths, Memory>
        requires { AreFlipsOn lines flips.now }
        ensures { IfOk result (AreDepthsOf (gates_of flips.now)) }
    {
        let all = depth_in(alloc, lines, flips, Counting::EachFlip)?;
        let toffoli = depth_in(alloc, lines, flips, Counting::Toffolis)?;
        Ok(Depths { all, toffoli })
    }

    /// Whether neither is greater.
    pub fn are_within(self, most: Depths) -> bool
        ensures { IsTrue result → AreWithin self most }
    {
        self.all <= most.all && self.toffoli <= most.toffoli
    }

    /// Whether they are better for a goal.
    pub fn are_better(self, others: Depths, goal: Goal) -> bool {
        match goal {
            Goal::Toffoli => (self.toffoli, self.all) < (others.toffoli, others.all),
            Goal::Depth => (self.all, self.toffoli) < (others.all, others.toffoli),
        }
    }
}

// Which flips count in a depth, each as one.
#[derive(Clone, Copy)]
pub enum Counting {
    EachFlip,
    Toffolis,
}

// What a flip adds to the depth.
fn weight_for(counting: Counting, flip: Flip) -> u64
    ensures weight { result ≡ weight_for counting (gate_of flip) }
    ensures one { result ≤ 1 }
{
    match counting {
        Counting::EachFlip => 1,
        Counting::Toffolis => match flip.controls {
            Controls::Zero | Controls::One(_) => 0,
            Controls::Two(..) => 1,
        },
    }
}

fn depth_in(alloc: Global, lines: u32, flips: &[Flip], counting: Counting) -> Result<u64, Memory>
    requires { AreFlipsOn lines flips.now }
    ensures { IfOk result (λ depth. depth ≡ depth_by (weight_for counting) (gates_of flips.now)) }
{
    // For each line the greatest depth of a flip on it so far.
    let mut depths = vec![in alloc; 0; lines as usize]?;
    let mut greatest = 0;
    for flip in flips {
        let depth = weight_for(counting, *flip) + greatest_on(lines, *flip, &depths);
        set_all(lines, *flip, &mut depths, depth);
        greatest = depth.max(greatest);
    }
    Ok(greatest)
}

// The greatest number at a line of the flip.
fn greatest_on(lines: u32, flip: Flip, depths: &[u64]) -> u64
    requires long { length depths.now ≡ lines }
    requires on { IsGateOn lines (gate_of flip) }
    ensures { result ≡ greatest_at depths.now (lines_of (gate_of flip)) }
{
    let of_target = depths[flip.target as usize];
    match flip.controls {
        Controls::Zero => of_target,
        Controls::One(one) => of_target.max(depths[one as usize]),
        Controls::Two(first, second) => of_target
            .max(depths[first as usize])
            .max(depths[second as usize]),
    }
}

// Sets the numbers at all lines of the flip.
fn set_all(lines: u32, flip: Flip, depths: &mut [u64], depth: u64)
    requires long { length depths.old ≡ lines }
    requires on { IsGateOn lines (gate_of flip) }
    ensures { (line : ℕ) → slice_index depths.new line
        ≡ (if has_line line (lines_of (gate_of flip)) then depth
        else slice_index depths.old line) }
{
    match flip.controls {
        Controls::Zero => {}
        Controls::One(one) => depths[one as usize] = depth,
        Controls::Two(first, second) => {
            depths[first as usize] = depth;
            depths[second as usize] = depth;
        }
    }
    depths[flip.target as usize] = depth;
}
