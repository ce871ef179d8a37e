// What gates come to.
use bit_sums::Sum;

/// A number of gates, and how many of them are Toffoli gates.
#[derive(Clone, Copy)]
pub struct Weight {
    pub gates: u64,
    pub toffoli: u64,
}

impl Weight {
    pub const NONE: Weight = Weight {
        gates: 0,
        toffoli: 0,
    };

    /// What the gates come to that add a sum to a line.
    pub fn of(sum: &Sum) -> Weight {
        let mut gates = (sum.bits().len() as u64).saturating_add(u64::from(sum.one()));
        for product in sum.products() {
            // Each further bit of a factor is added to its first one and taken off again.
            let further = (product.first().len() as u64)
                .saturating_add(product.second().len() as u64)
                .saturating_sub(2);
            gates = gates
                .saturating_add(further.saturating_mul(2))
                .saturating_add(1);
        }
        Weight {
            gates,
            toffoli: sum.products().len() as u64,
        }
    }

    /// What is left where one bit is not added.
    pub fn without_bit(self) -> Weight {
        Weight {
            gates: self.gates.saturating_sub(1),
            toffoli: self.toffoli,
        }
    }

    /// Both together.
    pub fn plus(self, other: Weight) -> Weight {
        Weight {
            gates: self.gates.saturating_add(other.gates),
            toffoli: self.toffoli.saturating_add(other.toffoli),
        }
    }
}
