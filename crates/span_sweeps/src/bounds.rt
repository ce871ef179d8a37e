// How many segments have to be cleaned.

/// Numbers of cleaned segments that are too few (`no`) and enough (`yes`), and by how many lines
/// the room was passed there, and not filled here.
#[derive(Clone, Copy)]
pub struct Bounds {
    pub no: usize,
    pub yes: usize,
    pub over: u32,
    pub under: u32,
}

impl Bounds {
    /// A number between the two, by the rule of three or the half of both; none where there is
    /// none.
    pub fn middle(&self, by_lines: bool) -> Option<usize> {
        let width = self.yes.saturating_sub(self.no);
        if width < 2 {
            return None;
        }
        let (over, under) = (u64::from(self.over), u64::from(self.under));
        let part = if by_lines {
            (width as u64)
                .saturating_mul(over)
                .checked_div(over + under)
        } else {
            Some(width as u64 / 2)
        };
        let step = usize::try_from(part.unwrap_or(1)).unwrap_or(1);
        Some(self.no.saturating_add(step.clamp(1, width - 1)))
    }
}
