// The order of plans.

/// What a plan costs. Of two plans the better one is that of the lesser size: it has fewer Toffoli
/// gates; of as many, the smaller product of lines and gates; of as large a one, fewer lines.
#[derive(Clone, Copy, PartialEq, Eq, PartialOrd, Ord)]
pub struct Size {
    /// The number of flips under two lines.
    pub toffoli: u64,
    area: u64,
    lines: u32,
}

impl Size {
    /// No plan has a greater one.
    pub const MOST: Size = Size {
        toffoli: u64::MAX,
        area: u64::MAX,
        lines: u32::MAX,
    };

    /// That of a plan with so many Toffoli gates, lines, and gates of any kind.
    pub fn new(toffoli: u64, lines: u32, gates: u64) -> Size {
        Size {
            toffoli,
            area: gates.saturating_mul(u64::from(lines)),
            lines,
        }
    }
}
