// Fingerprints of forms: a linear map into 256 bits.

/// A linear fingerprint of an exclusive sum of atoms: that of a sum is the sum of those of its
/// parts, and the constant has none. It proves nothing: whoever uses it compares forms.
#[derive(Clone, Copy, PartialEq, Eq)]
pub struct Fingerprint {
    pub first: u64,
    pub second: u64,
    pub third: u64,
    pub fourth: u64,
}

impl Fingerprint {
    /// That of the empty sum.
    pub fn none() -> Fingerprint {
        Fingerprint {
            first: 0,
            second: 0,
            third: 0,
            fourth: 0,
        }
    }

    /// That of an atom: four outputs of SplitMix64 (Steele, Lea, Flood: Fast Splittable
    /// Pseudorandom Number Generators) from seed 0.
    pub fn atom(number: u32) -> Fingerprint {
        let before = u64::from(number).wrapping_mul(4);
        Fingerprint {
            first: split_mix(before.wrapping_add(1)),
            second: split_mix(before.wrapping_add(2)),
            third: split_mix(before.wrapping_add(3)),
            fourth: split_mix(before.wrapping_add(4)),
        }
    }

    /// That of the sum of two forms.
    pub fn plus(self, other: Fingerprint) -> Fingerprint {
        Fingerprint {
            first: self.first ^ other.first,
            second: self.second ^ other.second,
            third: self.third ^ other.third,
            fourth: self.fourth ^ other.fourth,
        }
    }

    /// Whether all its bits are 0.
    pub fn is_none(self) -> bool {
        (self.first | self.second | self.third | self.fourth) == 0
    }

    // Its lowest bit alone, of the first word that is not 0.
    pub fn lowest(self) -> Fingerprint {
        let Fingerprint {
            first,
            second,
            third,
            fourth,
        } = self;
        let none = Fingerprint::none();
        if first != 0 {
            return Fingerprint {
                first: lowest_bit(first),
                ..none
            };
        }
        if second != 0 {
            return Fingerprint {
                second: lowest_bit(second),
                ..none
            };
        }
        if third != 0 {
            return Fingerprint {
                third: lowest_bit(third),
                ..none
            };
        }
        Fingerprint {
            fourth: lowest_bit(fourth),
            ..none
        }
    }

    // Whether both have a bit.
    pub fn meets(self, other: Fingerprint) -> bool {
        let words = (self.first & other.first) | (self.second & other.second);
        (words | (self.third & other.third) | (self.fourth & other.fourth)) != 0
    }
}

// The output of SplitMix64 at a step from seed 0.
fn split_mix(step: u64) -> u64 {
    let state = step.wrapping_mul(0x9E37_79B9_7F4A_7C15);
    let once = (state ^ (state >> 30)).wrapping_mul(0xBF58_476D_1CE4_E5B9);
    let twice = (once ^ (once >> 27)).wrapping_mul(0x94D0_49BB_1331_11EB);
    twice ^ (twice >> 31)
}

fn lowest_bit(word: u64) -> u64 {
    word & word.wrapping_neg()
}
