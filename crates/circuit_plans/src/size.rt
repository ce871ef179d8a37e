// The sizes by which plans are compared.
ghost use Rattle.std.specs.Prelude.{◌≡◌};
ghost use Rattle.circuit_plans.specs.Plans.{size_of};

use mct_circuit::Circuit;

/// The size of a circuit. Of two plans the better one is that of the lesser size: it has fewer
/// Toffoli gates; of as many, the smaller product of lines and gates; of as large a one, fewer
/// lines.
#[derive(Clone, Copy, Debug, PartialEq, Eq, PartialOrd, Ord)]
pub struct Size {
    /// The number of flips under two lines.
    pub toffoli: u64,
    /// The number of lines times the number of gates.
    pub area: u128,
    /// The number of lines.
    pub lines: u32,
}

impl Size {
    /// The size of a circuit. It takes no memory.
    pub fn of(circuit: &Circuit) -> Size
        ensures { result ≡ size_of circuit.now }
    {
        Size {
            toffoli: circuit.counts().ccx,
            area: u128::from(circuit.lines()) * u128::from(circuit.len()),
            lines: circuit.lines(),
        }
    }
}
