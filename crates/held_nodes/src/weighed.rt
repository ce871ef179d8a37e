// Gates that may weigh so much together.
ghost use Rattle.std.specs.Prelude.{◌≡◌, ◌+◌, ◌-◌, ◌≤◌, ◌∷◌, [], ◌++◌, OnOk, IfOk, IfErr, sum_by};
ghost use Rattle.std.specs.List.{AllByRecursion};
ghost use Rattle.bit_sums.specs.Sums.{bases_of};
ghost use Rattle.mct_circuit.specs.Sizes.{weight_of};
ghost use Rattle.sum_toggles.specs.Toggles.{AreApart, IsPlacedBase, base_line, sum_gates};
ghost use Rattle.sum_toggles.specs.Toggles.{toggle_weight};
ghost use Rattle.held_nodes.specs.inside.Kept.{HasProducts, IsWeightFault, WeighedView};

use bit_sums::Sum;
use circuit_plans::PlanFault;
use mct_circuit::Gate;
use revc_base::Memory;
use std::alloc::Global;
use std::marker::Model;
use sum_toggles::{append_sum, weight_within};

// A list of gates, and the most that they may weigh together.
#[derive(Drop)]
pub struct WeighedGates {
    gates: Vec<Gate>,
    weight: u64,
    most: u64,
}

impl Model for WeighedGates {
    ghost Value = { WeighedView };

    ghost view = { λ w. record { gates = w.gates.items; most = w.most } };

    ghost invariant = { λ w. (w.weight ≡ sum_by weight_of w.gates.items) × (w.weight ≤ w.most) };
}

impl WeighedGates {
    pub fn new(alloc: Global, most: u64) -> WeighedGates
        ensures { result ≡ record { gates = []; most = most } }
    {
        WeighedGates {
            gates: Vec::new(alloc),
            weight: 0,
            most,
        }
    }

    pub fn allocator(&self) -> Global {
        *self.gates.allocator()
    }

    // What the gates weigh together.
    pub fn weight(&self) -> u64
        ensures weight { result ≡ sum_by weight_of self.now.gates }
        ensures within { result ≤ self.now.most }
    {
        self.weight
    }

    // How much more the gates may weigh.
    pub fn room(&self) -> u64
        ensures room { result ≡ self.now.most - sum_by weight_of self.now.gates }
        ensures within { sum_by weight_of self.now.gates ≤ self.now.most }
    {
        self.most - self.weight
    }

    // Appends a gate, for which there is room.
    pub fn put(&mut self, gate: Gate) -> Result<(), Memory>
        requires { sum_by weight_of (self.old.gates ++ gate ∷ []) ≤ self.old.most }
        ensures { OnOk result (self.new
            ≡ record self.old { gates = self.old.gates ++ gate ∷ [] }) }
    {
        let weight = gate.weight();
        self.gates.push(gate)?;
        self.weight += weight;
        Ok(())
    }

    // With the gates that add a sum to a line, where they are light enough.
    pub fn with_sum(
        self,
        first: u32,
        lines: &[Option<u32>],
        target: u32,
        sum: &Sum,
    ) -> Result<WeighedGates, PlanFault>
        requires placed { AllByRecursion (IsPlacedBase first lines.now) (bases_of sum.now) }
        requires apart { AreApart (base_line first lines.now) target (bases_of sum.now) }
        ensures ok { IfOk result (λ next. next ≡ record self
            { gates = self.gates ++ sum_gates (base_line first lines.now) target sum.now }) }
        ensures refused { IfErr result (IsWeightFault self.most
            (sum_by weight_of self.gates + toggle_weight sum.now)) }
        ensures light { IfOk result (λ next. sum_by weight_of next.gates ≤ next.most) }
        ensures products { IfOk result (λ _. HasProducts sum.now) }
    {
        let WeighedGates {
            mut gates,
            weight,
            most,
        } = self;
        let Some(more) = weight_within(sum, most - weight) else {
            return Err(PlanFault::Gates);
        };
        append_sum(&mut gates, first, lines, target, sum)?;
        Ok(WeighedGates {
            gates,
            weight: weight + more,
            most,
        })
    }

    // The gates.
    pub fn into_gates(self) -> Vec<Gate>
        ensures { result.items ≡ self.gates }
    {
        let WeighedGates { gates, .. } = self;
        gates
    }
}
