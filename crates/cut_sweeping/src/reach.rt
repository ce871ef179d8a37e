// How far is looked.
/// Which cuts are asked of a product that is not derived, and of sums that may be equal: none,
/// narrow ones, or wide ones too.
#[derive(Clone, Copy, PartialEq, Eq)]
pub enum Reach {
    Products,
    Cuts,
    WideCuts,
}

impl Reach {
    /// The most units of the search for cuts: a unit is a vector of 512 bits that is read, or a few
    /// words of a sum.
    pub fn work(self) -> u64 {
        match self {
            Reach::Products => 0,
            Reach::Cuts => 1 << 29,
            Reach::WideCuts => 1 << 28,
        }
    }

    pub fn has_wide(self) -> bool {
        self == Reach::WideCuts
    }
}
