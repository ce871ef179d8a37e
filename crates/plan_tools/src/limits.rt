/// What a plan may take.
#[derive(Clone, Copy)]
pub struct Limits {
    /// The most lines, those of inputs and outputs and borrowed ones among them.
    pub lines: u32,
    /// The most gates.
    pub gates: u64,
    /// How many of the lines are borrowed.
    pub borrow: u32,
}

impl Limits {
    /// The most work lines beside so many lines of inputs and outputs; none where there are too few
    /// lines for these and the borrowed ones.
    pub fn work_lines(self, ports: u32) -> Option<u32> {
        self.lines.checked_sub(ports.saturating_add(self.borrow))
    }
}

/// No line: what stands where there is none to be chosen. No circuit has it, so moves that name it
/// are refused.
pub const NOWHERE: u32 = u32::MAX;
