// Flips under at most two controls.
ghost use Rattle.std.specs.Prelude.{◌≡◌};
ghost use Rattle.mct_circuit.specs.Sizes.{has_line};
ghost use Rattle.flip_lists.specs.Flips.{are_alike, are_among, are_free, controls_of, is_cx};
ghost use Rattle.flip_lists.specs.Flips.{lines_in};

/// The controls of a flip, none or one or two lines.
#[derive(Clone, Copy)]
pub enum Controls {
    Zero,
    One(u32),
    Two(u32, u32),
}

impl Controls {
    // Whether the line is a control.
    fn contains(self, line: u32) -> bool
        ensures { result ≡ has_line line (lines_in self) }
    {
        match self {
            Controls::Zero => false,
            Controls::One(one) => line == one,
            Controls::Two(first, second) => line == first || line == second,
        }
    }

    /// Whether each control is one of the others.
    pub fn are_among(self, others: Controls) -> bool
        ensures { result ≡ are_among (lines_in self) (lines_in others) }
    {
        match self {
            Controls::Zero => true,
            Controls::One(one) => others.contains(one),
            Controls::Two(first, second) => others.contains(first) && others.contains(second),
        }
    }
}

/// The flip of a target where all controls are 1.
#[derive(Clone, Copy)]
pub struct Flip {
    pub controls: Controls,
    pub target: u32,
}

impl Flip {
    /// Whether both have the same target and the same set of controls.
    pub fn is_like(self, other: Flip) -> bool
        ensures { result ≡ are_alike self other }
    {
        self.target == other.target
            && (self.controls.are_among(other.controls) && other.controls.are_among(self.controls))
    }

    /// Whether the target of neither is a control of the other.
    pub fn is_free_of(self, other: Flip) -> bool
        ensures { result ≡ are_free self other }
    {
        !other.controls.contains(self.target) && !self.controls.contains(other.target)
    }

    /// Whether there is one control.
    pub fn is_cx(self) -> bool
        ensures { result ≡ is_cx self }
    {
        match self.controls {
            Controls::One(_) => true,
            Controls::Zero | Controls::Two(..) => false,
        }
    }
}
