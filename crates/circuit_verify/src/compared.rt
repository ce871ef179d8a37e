// A circuit beside the settled graphs of what it is to compute and of what is assumed.
ghost use Rattle.std.specs.Prelude.{◌≡◌, ◌≤◌, ◌<◌, ◌+◌, length, sum, IfErr, IfOk};
ghost use Rattle.std.specs.Prelude.{IsFalse, IsTrue};
ghost use Rattle.revs_tape.specs.Tapes.{AreWidths};
ghost use Rattle.circuit_plans.specs.declared.plan.TheConstants.{MOST_BORROWED};
ghost use Rattle.circuit_plans.specs.declared.roles.Placing.TheVariants.{InPlace};
ghost use Rattle.circuit_verify.specs.Comparisons.{beside, inputs_in, lines_for, of_settled};
ghost use Rattle.circuit_verify.specs.Comparisons.{output_lines, output_variables};
ghost use Rattle.circuit_verify.specs.Comparisons.{variables_in, work_lines};
ghost use Rattle.circuit_verify.specs.Compared.{IsReady, comparison, ComparedView};
ghost use Rattle.circuit_verify.specs.Verdicts.{FillsInputs, IsNotComparable};

use crate::NotComparable;
use crate::gates::first_wide;
use circuit_plans::{Placing, Start};
use claim_check::Settled;
use mct_circuit::Circuit;
use std::marker::Model;

/// A settled graph with the widths of its parameters, what is assumed of its inputs, and a circuit
/// of narrow gates that has enough lines.
#[derive(Drop)]
pub struct Compared<'s> {
    /// What the circuit is to compute.
    pub graph: &'s Settled,
    /// The inputs that are looked at: those on which the one output of this graph is 1.
    pub premise: &'s Settled,
    /// The widths of its parameters.
    pub params: &'s [u32],
    /// The circuit.
    pub circuit: &'s Circuit,
    /// Where it puts the outputs.
    pub placing: Placing,
    /// How many of its lines, the last ones, are borrowed.
    pub borrow: u32,
}

impl<'s> Model for Compared<'s> {
    ghost Value = { ComparedView };

    ghost view = { λ c. record {
      graph = c.graph.now;
      premise = c.premise.now;
      params = c.params.now;
      circuit = c.circuit.now;
      placing = c.placing;
      borrow = c.borrow;
    } };

    ghost invariant = { λ c. IsReady (record {
      graph = c.graph.now;
      premise = c.premise.now;
      params = c.params.now;
      circuit = c.circuit.now;
      placing = c.placing;
      borrow = c.borrow;
    }) };
}

impl<'s> Compared<'s> {
    /// A circuit beside the settled graph whose outputs it is to put where `placing` says, with
    /// parameters of these widths: its lines are those of the inputs, then the output lines, then
    /// the work lines, then the last `borrow` lines, which may hold anything. Only inputs are
    /// looked at on which the one output of `premise` is 1. It takes no memory.
    ///
    /// # Errors
    ///
    /// In this order: `Outputs` exactly where the outputs are to be in place and are fewer than the
    /// inputs, `Lines` exactly where there are too few lines, `Gate` exactly where a gate is no
    /// flip with at most two controls, all positive.
    pub fn of(
        graph: &'s Settled,
        premise: &'s Settled,
        params: &'s [u32],
        circuit: &'s Circuit,
        placing: Placing,
        borrow: u32,
    ) -> Result<Compared<'s>, NotComparable>
        requires widths { AreWidths params.now }
        requires inputs { sum params.now ≡ graph.now.inputs }
        requires assumed { premise.now.inputs ≡ graph.now.inputs }
        requires output { length premise.now.outputs ≡ 1 }
        requires borrow { borrow ≤ MOST_BORROWED }
        ensures made { IfOk result (λ compared. compared ≡ record {
          graph = graph.now;
          premise = premise.now;
          params = params.now;
          circuit = circuit.now;
          placing = placing;
          borrow = borrow;
        }) }
        ensures ready { IfOk result IsReady }
        ensures refused { IfErr result (IsNotComparable
            (beside (of_settled params.now graph.now) (of_settled params.now premise.now)
            circuit.now placing borrow)) }
    {
        let _ = premise.inputs(); // shows what is known of it
        let (inputs, outputs) = (graph.inputs(), graph.outputs().len() as u32);
        if are_few(placing, inputs, outputs) {
            return Err(NotComparable::Outputs { inputs, outputs });
        }
        let need = inputs + lines_for(placing, inputs, outputs) + borrow;
        if circuit.lines() < need {
            return Err(NotComparable::Lines { need });
        }
        if let Some(gate) = first_wide(circuit.gates()) {
            return Err(NotComparable::Gate { gate });
        }
        Ok(Compared {
            graph,
            premise,
            params,
            circuit,
            placing,
            borrow,
        })
    }

    /// The number of inputs, of output lines that have variables, and of borrowed lines.
    pub fn variables(&self) -> u32
        ensures count { result ≡ variables_in (comparison self.now) }
        ensures ready { IsReady self.now }
    {
        self.graph.inputs() + self.output_variables() + self.borrow
    }

    /// How many output lines have variables.
    pub fn output_variables(&self) -> u32
        ensures count { result
            ≡ output_variables self.now.placing (output_lines (comparison self.now)) }
        ensures few { result ≤ output_lines (comparison self.now) }
    {
        match self.placing {
            Placing::Added(Start::Any) => self.output_lines(),
            Placing::Added(Start::Zero) => 0,
            Placing::InPlace => 0,
        }
    }

    /// Where the circuit puts the outputs.
    pub fn placing(&self) -> Placing
        ensures { result ≡ self.now.placing }
    {
        self.placing
    }

    /// How many lines are input lines.
    pub fn inputs(&self) -> u32
        ensures { result ≡ inputs_in (comparison self.now) }
    {
        self.graph.inputs()
    }

    /// How many are output lines.
    pub fn output_lines(&self) -> u32
        ensures { result ≡ output_lines (comparison self.now) }
    {
        lines_for(self.placing, self.graph.inputs(), self.outputs())
    }

    /// How many outputs there are.
    pub fn outputs(&self) -> u32
        ensures { result ≡ length self.now.graph.outputs }
    {
        self.graph.outputs().len() as u32
    }

    /// How many are work lines.
    pub fn work(&self) -> u32
        ensures { result ≡ work_lines (comparison self.now) }
    {
        let used = self.graph.inputs() + self.output_lines() + self.borrow;
        self.circuit.lines() - used
    }
}

// In place there are fewer outputs than inputs.
fn are_few(placing: Placing, inputs: u32, outputs: u32) -> bool
    ensures few { IsTrue result → (placing ≡ InPlace) × (outputs < inputs) }
    ensures enough { IsFalse result → FillsInputs placing inputs outputs }
{
    match placing {
        Placing::Added(_) => false,
        Placing::InPlace => outputs < inputs,
    }
}

// How many output lines there are for so many inputs and outputs.
fn lines_for(placing: Placing, inputs: u32, outputs: u32) -> u32
    ensures { result ≡ lines_for placing inputs outputs }
{
    match placing {
        Placing::Added(_) => outputs,
        Placing::InPlace => outputs.saturating_sub(inputs),
    }
}
