// Circuits of narrow gates.
ghost use Rattle.std.specs.Prelude.{◌≡◌};
ghost use Rattle.mct_circuit.specs.Gates.{AreNarrow, CircuitView};

use mct_circuit::Circuit;
use std::marker::Model;

/// A circuit whose gates are all flips with at most two controls, all positive. Contracts see it as
/// the circuit.
#[derive(Drop)]
pub struct Narrow {
    circuit: Circuit,
}

impl Model for Narrow {
    ghost Value = { CircuitView };

    ghost view = { λ n. n.circuit };

    ghost invariant = { λ n. AreNarrow n.circuit.gates };
}

impl Narrow {
    /// The circuit, of narrow gates.
    pub fn new(circuit: Circuit) -> Narrow
        requires { AreNarrow circuit.gates }
        ensures { result ≡ circuit }
    {
        Narrow { circuit }
    }

    /// The circuit. It takes no memory.
    pub fn circuit(&self) -> &Circuit
        ensures circuit { result.now ≡ self.now }
        ensures narrow { AreNarrow self.now.gates }
    {
        &self.circuit
    }
}
