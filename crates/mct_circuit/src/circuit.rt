// A circuit: a number of lines and a list of gates on them.
ghost use Rattle.std.specs.Prelude.{◌≡◌, ◌+◌, ◌<◌, ◌≤◌, ◌↔◌, ◌++◌, ◌∷◌, [], length, reverse, take};
ghost use Rattle.std.specs.Prelude.{slice_get, Some, OnOk, OnErr, IfOk, IsErrOf, IsTrue, false};
ghost use Rattle.std.specs.Prelude.{◌==◌};
ghost use Rattle.std.specs.List.{AllByRecursion};
ghost use Rattle.mct_circuit.specs.declared.circuit.GateFault.TheVariants as faults;
ghost use Rattle.mct_circuit.specs.Sizes.{depth_by, depth_of, toffoli_depth_of};
ghost use Rattle.mct_circuit.specs.inside.Counting.{weight_for};
ghost use Rattle.mct_circuit.specs.Gates.{AreGatesOn, AreNarrow, lines_of, flip_of, line_map};
ghost use Rattle.mct_circuit.specs.Gates.{CircuitView};
ghost use Rattle.list_facts.specs.Lists.{AreDifferent};

use crate::Gate;
use crate::depth::{Counting, greatest_on, set_all, weight_for};
use revc_base::{Memory, WantOfMemory};
use std::alloc::Global;
use std::marker::Model;
use std::mem;

/// Why gates were not appended: the circuit would pass its limit of gates, or memory was refused.
#[derive(Clone, Copy, Debug, PartialEq, Eq)]
pub enum GateFault {
    Full,
    Memory(Memory),
}

impl<M: WantOfMemory> From<M> for GateFault {
    ghost from_gives = { λ _ e. e ≡ faults.Memory _ };

    fn from(want: M) -> GateFault {
        GateFault::Memory(want.memory())
    }
}

/// A circuit on lines 0 to `lines - 1`, with at most `limit` gates, each on lines of the circuit.
/// Contracts see it as its number of lines, its limit and its list of gates.
#[derive(Debug, Drop)]
pub struct Circuit {
    lines: u32,
    limit: u64,
    gates: Vec<Gate>,
}

impl Model for Circuit {
    ghost Value = { CircuitView };

    ghost view = { λ c. record { lines = c.lines; limit = c.limit; gates = c.gates.items } };

    ghost invariant = { λ c. (AreGatesOn c.lines c.gates.items)
        × (length c.gates.items ≤ c.limit) };
}

impl Circuit {
    /// The circuit of no gates. It takes no memory.
    pub fn new(alloc: Global, lines: u32, limit: u64) -> Circuit
        ensures { result ≡ record { lines = lines; limit = limit; gates = [] } }
    {
        Circuit {
            lines,
            limit,
            gates: Vec::new(alloc),
        }
    }

    /// The circuit of these gates on its lines, which are within its limit. It takes no memory.
    pub fn from_gates(lines: u32, limit: u64, gates: Vec<Gate>) -> Circuit
        requires on { AreGatesOn lines gates.items }
        requires limited { length gates.items ≤ limit }
        ensures { result ≡ record { lines = lines; limit = limit; gates = gates.items } }
    {
        Circuit {
            lines,
            limit,
            gates,
        }
    }

    /// Appends a gate on lines of the circuit. `Full` comes exactly where the circuit holds `limit`
    /// gates. After a refusal the circuit is unchanged.
    pub fn push(&mut self, gate: Gate) -> Result<(), GateFault>
        requires { AllByRecursion (λ line. line < self.old.lines) (lines_of gate) }
        ensures ok { OnOk result (self.new ≡ record self.old
            { gates = self.old.gates ++ gate ∷ [] }) }
        ensures full { IsErrOf result GateFault.Full ↔ (length self.old.gates ≡ self.old.limit) }
        ensures err { OnErr result (self.new ≡ self.old) }
    {
        // This call says that the gate's lines are different.
        let _ = gate.op();
        if self.is_full() {
            return Err(GateFault::Full);
        }
        self.gates.push(gate)?;
        Ok(())
    }

    /// Appends the flip of `target` where all lines of `controls` are 1, as `push` does.
    pub fn push_flip(&mut self, controls: &[u32], target: u32) -> Result<(), GateFault>
        requires different { AreDifferent (controls.now ++ target ∷ []) }
        requires in_range { AllByRecursion (λ line. line < self.old.lines)
            (controls.now ++ target ∷ []) }
        ensures ok { OnOk result (self.new ≡ record self.old
            { gates = self.old.gates ++ flip_of controls.now target ∷ [] }) }
        ensures full { IsErrOf result GateFault.Full ↔ (length self.old.gates ≡ self.old.limit) }
        ensures err { OnErr result (self.new ≡ self.old) }
        ensures narrow { length controls.now ≤ 2 → AreNarrow self.old.gates
            → AreNarrow self.new.gates }
    {
        if self.is_full() {
            return Err(GateFault::Full);
        }
        let alloc = *self.gates.allocator();
        let gate = Gate::flip(alloc, controls, target)?;
        self.push(gate)
    }

    /// Appends copies of the first `count` gates in reversed order. `Full` comes exactly where the
    /// circuit would hold more than `limit` gates. After a refusal the circuit is unchanged.
    pub fn append_reversed(&mut self, count: u64) -> Result<(), GateFault>
        requires { count ≤ length self.old.gates }
        ensures ok { OnOk result (self.new ≡ record self.old
            { gates = self.old.gates ++ reverse (take count self.old.gates) }) }
        ensures full { IsErrOf result GateFault.Full
            ↔ (self.old.limit < length self.old.gates + count) }
        ensures err { OnErr result (self.new ≡ self.old) }
    {
        if self.limit - self.len() < count {
            return Err(GateFault::Full);
        }
        let alloc = *self.gates.allocator();
        let mut mirrored = reversed_copies(alloc, &self.gates[..count as usize])?;
        self.append(&mut mirrored)
    }

    /// Appends all gates, and leaves `gates` empty. `Full` comes exactly where the circuit would
    /// hold more than `limit` gates. After a refusal the circuit and `gates` are unchanged.
    pub fn append(&mut self, gates: &mut Vec<Gate>) -> Result<(), GateFault>
        requires { AreGatesOn self.old.lines gates.old.items }
        ensures ok { OnOk result (self.new ≡ record self.old
            { gates = self.old.gates ++ gates.old.items }) }
        ensures emptied { OnOk result (gates.new.items ≡ []) }
        ensures kept { OnErr result (gates.new.items ≡ gates.old.items) }
        ensures full { IsErrOf result GateFault.Full
            ↔ (self.old.limit < length self.old.gates + length gates.old.items) }
        ensures err { OnErr result (self.new ≡ self.old) }
    {
        if self.limit - self.len() < gates.len() as u64 {
            return Err(GateFault::Full);
        }
        if self.is_empty() {
            mem::swap(&mut self.gates, gates);
            return Ok(());
        }
        self.gates.append(gates)?;
        Ok(())
    }

    /// Changes the bits of the lines as the gates do, one gate after another. It takes no memory.
    pub fn apply(&self, lines: &mut [bool])
        requires { length lines.old ≡ self.now.lines }
        ensures { lines.new ≡ line_map self.now.gates lines.old }
    {
        for gate in &self.gates {
            gate.apply(lines);
        }
    }

    /// The depth: a gate's depth is one more than the greatest depth of an earlier gate that shares
    /// a line with it, and the circuit's is the greatest of them, or 0. It takes time and memory
    /// linear in the gates and lines.
    pub fn depth(&self) -> Result<u64, Memory>
        ensures { IfOk result (λ depth. depth ≡ depth_of self.now.gates) }
    {
        self.depth_in(Counting::EachGate)
    }

    /// The Toffoli depth: as `depth`, where a flip under two controls counts 1 and another gate 0.
    pub fn toffoli_depth(&self) -> Result<u64, Memory>
        ensures { IfOk result (λ depth. depth ≡ toffoli_depth_of self.now.gates) }
    {
        self.depth_in(Counting::Toffolis)
    }

    fn depth_in(&self, counting: Counting) -> Result<u64, Memory>
        ensures { IfOk result (λ depth. depth ≡ depth_by (weight_for counting) self.now.gates) }
    {
        // For each line the greatest depth of a gate on it so far.
        let mut depths = vec![in *self.gates.allocator(); 0; self.lines as usize]?;
        let mut greatest = 0;
        for gate in &self.gates {
            let depth = weight_for(counting, gate) + greatest_on(gate, &depths);
            set_all(gate, &mut depths, depth);
            greatest = depth.max(greatest);
        }
        Ok(greatest)
    }

    /// The number of lines. It takes no memory.
    pub fn lines(&self) -> u32
        ensures lines { result ≡ self.now.lines }
        ensures gates { AreGatesOn self.now.lines self.now.gates }
    {
        self.lines
    }

    /// The number of gates. It takes no memory.
    pub fn len(&self) -> u64
        ensures len { result ≡ length self.now.gates }
        ensures limited { length self.now.gates ≤ self.now.limit }
    {
        self.gates.len() as u64
    }

    /// Whether there is no gate.
    pub fn is_empty(&self) -> bool
        ensures { result ≡ (length self.now.gates == 0) }
    {
        self.gates.is_empty()
    }

    /// Whether the circuit holds as many gates as its limit allows.
    pub fn is_full(&self) -> bool
        ensures full { IsTrue result ↔ (length self.now.gates ≡ self.now.limit) }
        ensures room { result ≡ false → length self.now.gates < self.now.limit }
    {
        self.len() == self.limit
    }

    /// The gates, in order. It takes no memory.
    pub fn gates(&self) -> &[Gate]
        ensures gates { result.now ≡ self.now.gates }
        ensures placed { AreGatesOn self.now.lines self.now.gates }
    {
        &self.gates
    }

    /// The gates alone, in order. It takes no memory.
    pub fn into_gates(self) -> Vec<Gate>
        ensures gates { result.items ≡ self.gates }
        ensures placed { AreGatesOn self.lines self.gates }
    {
        self.gates
    }

    /// The gate at place `i`, counted from 0. It takes no memory.
    pub fn gate(&self, i: u64) -> &Gate
        requires { i < length self.now.gates }
        ensures { slice_get self.now.gates i ≡ Some result.now }
    {
        &self.gates[i as usize]
    }
}

// Copies of the gates, the last one first.
fn reversed_copies(alloc: Global, gates: &[Gate]) -> Result<Vec<Gate>, GateFault>
    ensures gates { IfOk result (λ copies. copies.items ≡ reverse gates.now) }
    ensures cause { IsErrOf result GateFault.Full → ⊥ }
{
    let mut copies = Vec::with_capacity(alloc, gates.len())?;
    for gate in gates {
        copies.push(gate.copy()?)?;
    }
    copies.reverse();
    Ok(copies)
}
