// The sizes of gates and circuits: weights, counts and depth.
ghost use Rattle.std.specs.Prelude.{◌≡◌, ℕ, ◌+◌, ◌*◌, ◌^◌, ◌<◌, ◌≤◌, length, IfOk, slice_index};
ghost use Rattle.std.specs.List.{AllByRecursion, count_by};
ghost use Rattle.mct_circuit.specs.Gates.{GateView, lines_of};
ghost use Rattle.mct_circuit.specs.Sizes.{weight_of, flip_weight, negative_controls, counts_of};
ghost use Rattle.mct_circuit.specs.Sizes.{is_flip_under, is_wide_flip, is_swap, depth_of};

use crate::{Circuit, Control, Gate, Op};
use revc_base::Memory;

/// How many gates of each kind a circuit has: flips with no control, one, two and more, the
/// negative ones included, and swaps.
#[derive(Clone, Copy, Debug, PartialEq, Eq)]
pub struct Counts {
    pub x: u64,
    pub cx: u64,
    pub ccx: u64,
    pub wide: u64,
    pub swap: u64,
}

impl Gate {
    /// How many flips with at most two positive controls stand for the gate, where enough lines are
    /// idle: 1 for a flip with at most two controls and `4 * (k - 2)` for one with `k`, two more
    /// for each negative control, and for a swap two more than for the flip with one more control.
    /// It takes no memory.
    pub fn weight(&self) -> u64
        ensures { result ≡ weight_of self.now }
    {
        let controls = self.controls();
        let negative = negative_controls(controls);
        let flips = match self.op() {
            Op::Flip(_) => flip_weight(controls.len() as u64),
            Op::Swap(..) => 2 + flip_weight(controls.len() as u64 + 1),
        };
        flips + 2 * negative
    }

    pub(crate) fn is_flip_under(&self, count: usize) -> bool
        ensures { result ≡ is_flip_under count self.now }
    {
        !self.op().is_swap() && self.controls().len() == count
    }

    fn is_wide_flip(&self) -> bool
        ensures { result ≡ is_wide_flip self.now }
    {
        !self.op().is_swap() && self.controls().len() >= 3
    }
}

impl Op {
    fn is_swap(&self) -> bool
        ensures { result ≡ is_swap self.now }
    {
        match self {
            Op::Flip(_) => false,
            Op::Swap(..) => true,
        }
    }
}

impl Circuit {
    /// How many gates of each kind there are. It takes no memory.
    pub fn counts(&self) -> Counts
        ensures { result ≡ counts_of self.now.gates }
    {
        let mut counts = Counts::NONE;
        for gate in self.gates() {
            counts.x += u64::from(gate.is_flip_under(0));
            counts.cx += u64::from(gate.is_flip_under(1));
            counts.ccx += u64::from(gate.is_flip_under(2));
            counts.wide += u64::from(gate.is_wide_flip());
            counts.swap += u64::from(gate.op().is_swap());
        }
        counts
    }
}

impl Counts {
    const NONE: Counts = Counts {
        x: 0,
        cx: 0,
        ccx: 0,
        wide: 0,
        swap: 0,
    };
}

fn flip_weight(controls: u64) -> u64
    requires { controls < 2 ^ 33 }
    ensures { result ≡ flip_weight controls }
{
    if controls <= 2 { 1 } else { 4 * (controls - 2) }
}

fn negative_controls(controls: &[Control]) -> u64
    ensures count { result ≡ negative_controls controls.now }
    ensures lines { AllByRecursion (λ control. control.line < 2 ^ 32) controls.now }
    ensures some { result ≤ length controls.now }
{
    let mut count = 0;
    for control in controls {
        // This read says that the line is a `u32`.
        let _line = control.line;
        count += u64::from(!control.positive);
    }
    count
}
