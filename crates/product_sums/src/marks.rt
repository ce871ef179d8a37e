// Marks of products.
use linear_forms::{Fingerprint, Form};

// A mark of a product. It is linear in each factor, and none where both factors are alike: so it is
// one for any two members of the span of two factors, and where two sums of products agree but for
// linear terms, so do the sums of their marks. It proves nothing.
#[derive(Clone, Copy, PartialEq, Eq, Hash)]
pub struct Mark {
    upper: u64,
    lower: u64,
}

impl Mark {
    pub fn of(first: &Form, second: &Form) -> Mark {
        let Fingerprint {
            first: a,
            second: b,
            third: c,
            fourth: d,
        } = first.fingerprint();
        let other = second.fingerprint();
        Mark {
            upper: (a & other.third) ^ (c & other.first),
            lower: (b & other.fourth) ^ (d & other.second),
        }
    }

    pub fn is_none(self) -> bool {
        (self.upper | self.lower) == 0
    }

    pub fn plus(self, other: Mark) -> Mark {
        Mark {
            upper: self.upper ^ other.upper,
            lower: self.lower ^ other.lower,
        }
    }

    // Its lowest bit alone, of the first word that is not 0.
    pub fn lowest(self) -> Mark {
        let Mark { upper, lower } = self;
        if upper != 0 {
            return Mark {
                upper: upper & upper.wrapping_neg(),
                lower: 0,
            };
        }
        Mark {
            upper,
            lower: lower & lower.wrapping_neg(),
        }
    }

    // Whether both have a bit.
    pub fn meets(self, other: Mark) -> bool {
        ((self.upper & other.upper) | (self.lower & other.lower)) != 0
    }
}
