// The gates: a flip of one line or a swap of two, under positive and negative controls.
ghost use Rattle.std.specs.Prelude.{◌≡◌, ◌<◌, ◌∷◌, [], ◌++◌, length, map, IfOk};
ghost use Rattle.std.specs.List.{AllByRecursion, list_all};
ghost use Rattle.list_facts.specs.Lists.{AreDifferent};
ghost use Rattle.mct_circuit.specs.Gates.{HasDifferentLines, flip_of, positive, lines_of, is_met};
ghost use Rattle.mct_circuit.specs.Gates.{after_gate, GateView};

use revc_base::Memory;
use std::alloc::{AllocError, Global};
use std::marker::Model;

/// A control of a gate. A positive one is met where its line is 1, a negative one where it is 0.
/// Lines are counted from 0.
#[derive(Clone, Copy, Debug, PartialEq, Eq)]
pub struct Control {
    pub line: u32,
    pub positive: bool,
}

/// What a gate does where all its controls are met: it flips one line, or exchanges two.
#[derive(Clone, Copy, Debug, PartialEq, Eq)]
pub enum Op {
    Flip(u32),
    Swap(u32, u32),
}

/// A gate, all of whose lines are different. Flips with no control, one and two are the gates
/// X, CX (Feynman) and CCX (Toffoli); a swap under one control is the Fredkin gate.
/// Contracts see it as its list of controls and its operation.
#[derive(Debug, Drop)]
pub struct Gate {
    controls: Vec<Control>,
    op: Op,
}

impl Model for Gate {
    ghost Value = { GateView };

    ghost view = { λ g. record { controls = g.controls.items; op = g.op } };

    ghost invariant = { λ g. HasDifferentLines
        (record { controls = g.controls.items; op = g.op }) };
}

impl Gate {
    /// The gate that does `op` where all `controls` are met.
    pub fn new(controls: Vec<Control>, op: Op) -> Gate
        requires { HasDifferentLines (record { controls = controls.items; op = op }) }
        ensures { result ≡ record { controls = controls.items; op = op } }
    {
        Gate { controls, op }
    }

    /// The flip of `target` where all lines of `controls` are 1.
    pub fn flip(alloc: Global, controls: &[u32], target: u32) -> Result<Gate, Memory>
        requires { AreDifferent (controls.now ++ target ∷ []) }
        ensures { IfOk result (λ gate. gate ≡ flip_of controls.now target) }
    {
        let controls = positive_controls(alloc, controls)?;
        Ok(Gate::new(controls, Op::Flip(target)))
    }

    /// The controls, in their order. It takes no memory.
    pub fn controls(&self) -> &[Control]
        ensures controls { result.now ≡ self.now.controls }
        ensures different { HasDifferentLines self.now }
    {
        &self.controls
    }

    /// What the gate does. It takes no memory.
    pub fn op(&self) -> Op
        ensures op { result ≡ self.now.op }
        ensures different { HasDifferentLines self.now }
    {
        self.op
    }

    /// Changes the bits of the lines as the gate does, line 0 first. It takes no memory.
    pub fn apply(&self, lines: &mut [bool])
        requires { AllByRecursion (λ line. line < length lines.old) (lines_of self.now) }
        ensures { lines.new ≡ after_gate self.now lines.old }
    {
        if !are_met(&self.controls, lines) {
            return;
        }
        match self.op {
            Op::Flip(target) => lines[target as usize] = !lines[target as usize],
            Op::Swap(first, second) => lines.swap(first as usize, second as usize),
        }
    }

    /// The same gate once more, on the allocator of this one.
    pub fn copy(&self) -> Result<Gate, Memory>
        ensures { IfOk result (λ gate. gate ≡ self.now) }
    {
        let alloc = *self.controls.allocator();
        let controls = Vec::from_slice(alloc, &self.controls)?;
        Ok(Gate {
            controls,
            op: self.op,
        })
    }
}

fn are_met(controls: &[Control], lines: &[bool]) -> bool
    requires { AllByRecursion (λ control. control.line < length lines.now) controls.now }
    ensures { result ≡ list_all (is_met lines.now) controls.now }
{
    for control in controls {
        if lines[control.line as usize] != control.positive {
            return false;
        }
    }
    true
}

fn positive_controls(alloc: Global, lines: &[u32]) -> Result<Vec<Control>, AllocError>
    ensures { IfOk result (λ controls. controls.items ≡ map positive lines.now) }
{
    lines
        .iter()
        .map(|line| Control {
            line: *line,
            positive: true,
        })
        .collect(alloc)
}
