// What plans share: a budget, a plan before its gates are split, and after.
ghost use Rattle.std.specs.Prelude.{◌≡◌, ◌+◌, ◌≤◌};
ghost use Rattle.circuit_plans.specs.declared.plan.TheConstants.{MOST_LINES, MOST_GATES};
ghost use Rattle.circuit_plans.specs.declared.plan.TheConstants.{MOST_BORROWED};
ghost use Rattle.circuit_plans.specs.declared.plan.PlanFault.TheVariants as faults;
ghost use Rattle.circuit_plans.specs.Plans.{roles_of, BudgetView, PlannedView, LaidView, lines_in};
ghost use Rattle.circuit_plans.specs.Limits.{LimitsAre};
ghost use Rattle.mct_circuit.specs.Gates.{AreNarrow};

use crate::narrow::Narrow;
use crate::roles::Roles;
use mct_circuit::Circuit;
use revc_base::{Memory, WantOfMemory};
use std::marker::Model;

/// The most lines of a circuit.
pub const MOST_LINES: u32 = 16_384;

/// The most gates of a circuit.
pub const MOST_GATES: u64 = 4_000_000;

/// The most borrowed lines of a circuit.
pub const MOST_BORROWED: u32 = 64;

/// The law of limits: what number each is. The function does nothing: its contract is the law.
pub fn limits_are()
    ensures { LimitsAre }
{}

/// What a plan may use: so many lines and gates, and how many of the lines are borrowed, each
/// within its most.
#[derive(Drop)]
pub struct Budget {
    lines: u32,
    gates: u64,
    borrow: u32,
}

impl Model for Budget {
    ghost Value = { BudgetView };

    ghost view = { λ b. record { lines = b.lines; gates = b.gates; borrow = b.borrow } };

    ghost invariant = { λ b. (b.lines ≤ MOST_LINES) × (b.gates ≤ MOST_GATES)
        × (b.borrow ≤ MOST_BORROWED) };
}

impl Budget {
    /// The budget of these numbers.
    pub fn new(lines: u32, gates: u64, borrow: u32) -> Budget
        requires lines { lines ≤ MOST_LINES }
        requires gates { gates ≤ MOST_GATES }
        requires borrow { borrow ≤ MOST_BORROWED }
        ensures { result ≡ record { lines = lines; gates = gates; borrow = borrow } }
    {
        Budget {
            lines,
            gates,
            borrow,
        }
    }

    /// The number of lines, the borrowed ones among them.
    pub fn lines(&self) -> u32
        ensures lines { result ≡ self.now.lines }
        ensures limit { self.now.lines ≤ MOST_LINES }
    {
        self.lines
    }

    /// The number of gates.
    pub fn gates(&self) -> u64
        ensures gates { result ≡ self.now.gates }
        ensures limit { self.now.gates ≤ MOST_GATES }
    {
        self.gates
    }

    /// The number of borrowed lines.
    pub fn borrow(&self) -> u32
        ensures borrow { result ≡ self.now.borrow }
        ensures limit { self.now.borrow ≤ MOST_BORROWED }
    {
        self.borrow
    }
}

/// A plan whose gates are not split yet: its lines are those of the inputs, then those of the
/// outputs, then the work lines.
#[derive(Drop)]
pub struct Planned {
    circuit: Circuit,
    inputs: u32,
    outputs: u32,
    work: u32,
}

impl Model for Planned {
    ghost Value = { PlannedView };

    ghost view = { λ p. record {
      circuit = p.circuit;
      inputs = p.inputs;
      outputs = p.outputs;
      work = p.work;
    } };

    ghost invariant = { λ p. p.inputs + p.outputs + p.work ≡ p.circuit.lines };
}

impl Planned {
    /// The plan of these parts.
    pub fn new(circuit: Circuit, inputs: u32, outputs: u32, work: u32) -> Planned
        requires { inputs + outputs + work ≡ circuit.lines }
        ensures { result ≡ record {
          circuit = circuit;
          inputs = inputs;
          outputs = outputs;
          work = work;
        } }
    {
        Planned {
            circuit,
            inputs,
            outputs,
            work,
        }
    }

    /// The circuit.
    pub fn circuit(&self) -> &Circuit
        ensures circuit { result.now ≡ self.now.circuit }
        ensures lines { self.now.inputs + self.now.outputs + self.now.work
            ≡ self.now.circuit.lines }
    {
        &self.circuit
    }

    /// The circuit alone. It takes no memory.
    pub fn into_circuit(self) -> Circuit
        ensures { result ≡ self.circuit }
    {
        self.circuit
    }

    /// The number of input lines.
    pub fn inputs(&self) -> u32
        ensures { result ≡ self.now.inputs }
    {
        self.inputs
    }

    /// The number of output lines.
    pub fn outputs(&self) -> u32
        ensures { result ≡ self.now.outputs }
    {
        self.outputs
    }

    /// The number of work lines.
    pub fn work(&self) -> u32
        ensures { result ≡ self.now.work }
    {
        self.work
    }
}

/// A plan of narrow gates: its lines are those of the inputs, then those of the outputs, then the
/// work lines, then the borrowed ones.
#[derive(Drop)]
pub struct Laid {
    circuit: Narrow,
    roles: Roles,
}

impl Model for Laid {
    ghost Value = { LaidView };

    ghost view = { λ l. record {
      circuit = l.circuit;
      inputs = l.roles.inputs;
      outputs = l.roles.outputs;
      work = l.roles.work;
      borrowed = l.roles.borrowed;
    } };

    ghost invariant = { λ l. lines_in l.roles ≡ l.circuit.lines };
}

impl Laid {
    /// The plan of these parts.
    pub fn new(circuit: Narrow, inputs: u32, outputs: u32, work: u32, borrowed: u32) -> Laid
        requires { inputs + outputs + work + borrowed ≡ circuit.lines }
        ensures { result ≡ record {
          circuit = circuit;
          inputs = inputs;
          outputs = outputs;
          work = work;
          borrowed = borrowed;
        } }
    {
        let roles = Roles {
            inputs,
            outputs,
            work,
            borrowed,
        };
        Laid { circuit, roles }
    }

    /// The circuit.
    pub fn circuit(&self) -> &Circuit
        ensures circuit { result.now ≡ self.now.circuit }
        ensures narrow { AreNarrow self.now.circuit.gates }
        ensures lines { self.now.inputs + self.now.outputs + self.now.work + self.now.borrowed
            ≡ self.now.circuit.lines }
    {
        self.circuit.circuit()
    }

    /// The roles of the lines.
    pub fn roles(&self) -> Roles
        ensures { result ≡ roles_of self.now }
    {
        self.roles
    }

    /// The circuit and the roles of its lines. It takes no memory.
    pub fn into_parts(self) -> (Narrow, Roles)
        ensures circuit { result.0 ≡ self.circuit }
        ensures roles { result.1 ≡ roles_of self }
        ensures lines { lines_in result.1 ≡ self.circuit.lines }
    {
        (self.circuit, self.roles)
    }
}

/// Why there is no plan: so many lines are needed, or more gates than the budget has, or memory was
/// refused.
#[derive(Clone, Copy, Debug, PartialEq, Eq)]
pub enum PlanFault {
    Lines { need: u32 },
    Gates,
    Memory(Memory),
}

impl<M: WantOfMemory> From<M> for PlanFault {
    ghost from_gives = { λ _ e. e ≡ faults.Memory _ };

    fn from(want: M) -> PlanFault {
        PlanFault::Memory(want.memory())
    }
}
