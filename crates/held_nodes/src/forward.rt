// Forward parts: what is held, and the gates that hold it.
ghost use Rattle.std.specs.Prelude.{◌≡◌, ◌+◌, ◌<◌, ◌≤◌, [], length, true, false, replicate, Option};
ghost use Rattle.std.specs.Prelude.{None, Some, IfOk, IfErr, IfSome, IfNone};
ghost use Rattle.std.specs.List.{AllByRecursion};
ghost use Rattle.held_nodes.specs.inside.Lines.{IsLineHeap, contains};
ghost use Rattle.sum_graph.specs.Graphs.{IsSumGraph, sum_outputs};
ghost use Rattle.gate_split.specs.Costs.{IsRoomyFlip};
ghost use Rattle.circuit_plans.specs.Plans.{AddsOutputs};
ghost use Rattle.circuit_plans.specs.declared.roles.Start.TheVariants.{Any};
ghost use Rattle.dependency_graph.specs.Graphs.{IsKnownBase};
ghost use Rattle.held_nodes.specs.Held.{IsForward, held_line, is_held, is_ready};
ghost use Rattle.sum_graph.specs.Graphs.{first_work};
ghost use Rattle.held_nodes.specs.Moves.{CanClear, IsCleared, IsClearFault, IsFinishFault};
ghost use Rattle.held_nodes.specs.Moves.{IsReadyNode, IsReadySum, IsStartFault, IsToggled};
ghost use Rattle.held_nodes.specs.Moves.{IsToggleFault, copies_of, finished_weight, nothing_held};
ghost use Rattle.held_nodes.specs.Moves.{planned_of};
ghost use Rattle.circuit_plans.specs.Plans.{roles_of_plan};
ghost use Rattle.mct_circuit.specs.Sizes.{weight_in};
ghost use Rattle.circuit_plans.specs.Plans.{HasPorts, IsInBudget};
ghost use Rattle.held_nodes.specs.inside.Kept.{HasNoLineFor, HasProducts, IsLineFor, IsLineAfter};
ghost use Rattle.held_nodes.specs.inside.Kept.{IsKept};
ghost use Rattle.held_nodes.specs.Held.{ForwardView};

use crate::clearing::append_cubes;
use crate::copying::{copies_fit, copies_of, first_work, plan_of};
use crate::heap::Heap;
use crate::weighed::WeighedGates;
use circuit_plans::{Budget, PlanFault, Planned};
use dependency_graph::Base;
use exclusive_sums::Cube;
use mct_circuit::Gate;
use std::alloc::Global;
use std::marker::Model;
use sum_graph::SumGraph;

/// The forward part of a plan: gates that compute nodes of a graph onto work lines, and
/// clean them there. A node whose value stands on a work line is held. Whatever the output lines
/// hold, the gates take an input and zeros on the work lines to that input, each held node's value
/// on its line, and zeros on the other work lines.
///
/// Contracts see it as the graph, the budget, the list of gates, for each node None or its
/// work line, and the greatest number of nodes that were held at one time.
#[derive(Drop)]
pub struct Forward<'s> {
    graph: &'s SumGraph,
    budget: Budget,
    gates: WeighedGates,
    lines: Vec<Option<u32>>,
    heap: Heap,
}

/// A forward part that was worked on, or the refusal of what was to be done.
pub type Moved<'s> = Result<Forward<'s>, PlanFault>;

impl<'s> Model for Forward<'s> {
    ghost Value = { ForwardView };

    ghost view = { λ f. record {
      graph = f.graph.now;
      budget = f.budget;
      gates = f.gates.gates;
      lines = f.lines.items;
      most = f.heap.peak;
    } };

    ghost invariant = { λ f. IsKept (record {
      graph = f.graph.now;
      budget = f.budget;
      gates = f.gates.gates;
      lines = f.lines.items;
      most = f.heap.peak;
    }) f.gates.most f.heap };
}

impl<'s> Forward<'s> {
    /// The forward part of no gates, within the budget. Its work lines are those behind the lines
    /// of the inputs and outputs that the budget does not borrow.
    ///
    /// # Errors
    ///
    /// `Lines` exactly where the budget does not have a line for each input, output and borrowed
    /// bit; `need` is how many these are.
    pub fn new(alloc: Global, graph: &'s SumGraph, budget: &Budget) -> Moved<'s>
        ensures ok { IfOk result (λ forward. forward
            ≡ nothing_held graph.now budget.now (replicate (length graph.now.nodes) None)) }
        ensures keeps { IfOk result IsForward }
        ensures refused { IfErr result (IsStartFault graph.now budget.now) }
    {
        let need = graph.inputs() + graph.outputs().len() as u32 + budget.borrow();
        if need > budget.lines() {
            return Err(PlanFault::Lines { need });
        }
        let lines = vec![in alloc; None; graph.nodes() as usize]?;
        let heap = Heap::new(alloc, budget.lines() - need)?;
        Ok(Forward {
            graph,
            budget: Budget::new(budget.lines(), budget.gates(), budget.borrow()),
            gates: WeighedGates::new(alloc, budget.gates() / 2),
            lines,
            heap,
        })
    }

    /// Whether the node is held. It takes no memory.
    pub fn held(&self, node: u32) -> bool
        requires { node < length self.now.graph.nodes }
        ensures held { result ≡ is_held self.now.lines node }
        ensures keeps { IsForward self.now }
    {
        self.lines[node as usize].is_some()
    }

    /// Whether a base is an input, or a node that is held. It takes no memory.
    pub fn is_ready(&self, base: Base) -> bool
        requires { IsKnownBase self.now.graph.inputs (length self.now.graph.nodes) base }
        ensures ready { result ≡ is_ready self.now.lines base }
    {
        match base {
            Base::Input(_) => true,
            Base::Node(node) => self.held(node),
        }
    }

    /// Toggles a node: a held node is cleaned and gives its line back, another one takes the least
    /// free work line and is held there.
    ///
    /// # Errors
    ///
    /// `Lines` exactly where the node is not held and as many nodes are as the budget has work
    /// lines; `need` is one more than the budget's lines. Otherwise `Gates` exactly where twice the
    /// weight of all gates, with the toggle's, passes the budget.
    pub fn toggle(self, node: u32) -> Moved<'s>
        requires { IsReadyNode self.graph self.lines node }
        ensures ok { IfOk result (IsToggled self.entry node) }
        ensures keeps { IfOk result IsForward }
        ensures refused { IfErr result (IsToggleFault self.entry node) }
    {
        let Forward {
            graph,
            budget,
            gates,
            mut lines,
            mut heap,
        } = self;
        let own = lines[node as usize];
        let Some(line) = line_for(own, &mut heap) else {
            return Err(PlanFault::Lines {
                need: budget.lines() + 1,
            });
        };
        let sum = graph.node(node);
        let first = first_work(graph);
        let gates = gates.with_sum(first, &lines, first + line, sum)?;
        lines[node as usize] = line_after(own, line, &mut heap);
        Ok(Forward {
            graph,
            budget,
            gates,
            lines,
            heap,
        })
    }

    /// Cleans a held node by cubes whose exclusive or is its value: each flips the node's line,
    /// which is then given back.
    ///
    /// # Errors
    ///
    /// `Gates` exactly where twice the weight of all gates, with these flips, passes the budget.
    pub fn clear(mut self, node: u32, cubes: &[Cube]) -> Moved<'s>
        requires { CanClear self node cubes.now }
        ensures ok { IfOk result (IsCleared self.entry node cubes.now) }
        ensures keeps { IfOk result IsForward }
        ensures refused { IfErr result (IsClearFault self.entry node cubes.now) }
    {
        let line = held_line(&self.lines, node);
        let first = first_work(self.graph);
        append_cubes(&mut self.gates, first, line, cubes)?;
        self.heap.give(line);
        // This call says what a heap keeps.
        let _ = self.heap.peak();
        self.lines[node as usize] = None;
        Ok(self)
    }

    /// The plan of this forward part: its gates, a copy of each output to its line, and its gates
    /// reversed. Whatever the output lines hold, the circuit adds the outputs to it, and takes each
    /// input to itself and zeros on the work lines to zeros. It weighs twice as much as the gates
    /// and once as much as the copies; its lines, with the borrowed ones, and its weight are within
    /// the budget.
    ///
    /// # Errors
    ///
    /// `Gates` exactly where twice the weight of the gates and once that of the copies passes the
    /// budget.
    pub fn finish(self) -> Result<Planned, PlanFault>
        requires { AllByRecursion (IsReadySum self.lines) self.graph.outputs }
        ensures ok { IfOk result (λ planned. planned ≡ planned_of self.entry) }
        ensures clean { IfOk result (λ planned. AddsOutputs Any (roles_of_plan planned)
            planned.circuit.gates (sum_outputs self.entry.graph)) }
        ensures ports { IfOk result (HasPorts self.entry.graph.inputs
            (length self.entry.graph.outputs)) }
        ensures within { IfOk result (IsInBudget self.entry.budget) }
        ensures weighs { IfOk result (λ planned.
            weight_in planned.circuit.gates ≡ finished_weight self.entry) }
        ensures roomy { IfOk result (λ planned.
            AllByRecursion (IsRoomyFlip planned.circuit.lines) planned.circuit.gates) }
        ensures refused { IfErr result (IsFinishFault self.entry) }
    {
        let copies = self.copies()?;
        let work = self.heap.peak();
        let Forward {
            graph,
            budget,
            gates,
            ..
        } = self;
        plan_of(graph, budget.gates(), work, gates.into_gates(), copies)
    }

    // The copies of the outputs, where the plan with them is light enough.
    fn copies(&self) -> Result<Vec<Gate>, PlanFault>
        requires { AllByRecursion (IsReadySum self.now.lines) self.now.graph.outputs }
        ensures ok { IfOk result (λ copies. copies.items ≡ copies_of self.now) }
        ensures products { IfOk result (λ _. AllByRecursion HasProducts
            self.now.graph.outputs) }
        ensures light { IfOk result (λ _. finished_weight self.now ≤ self.now.budget.gates) }
        ensures refused { IfErr result (IsFinishFault self.now) }
    {
        let outputs = self.graph.outputs();
        if !copies_fit(outputs, self.budget.gates() - 2 * self.gates.weight()) {
            return Err(PlanFault::Gates);
        }
        let alloc = self.gates.allocator();
        let copies = copies_of(alloc, self.graph.inputs(), &self.lines, outputs)?;
        Ok(copies)
    }
}

// The work line of a node that is held.
fn held_line(lines: &[Option<u32>], node: u32) -> u32
    requires place { node < length lines.now }
    requires held { is_held lines.now node ≡ true }
    ensures { held_line lines.now node ≡ Some result }
{
    match lines[node as usize] {
        Some(line) => line,
        None => unreachable!(),
    }
}

// The line on which a node is toggled: its own, or the least free one, which is then out.
fn line_for(own: Option<u32>, heap: &mut Heap) -> Option<u32>
    ensures line { IfSome result (IsLineFor own heap.old heap.new) }
    ensures none { IfNone result (HasNoLineFor own heap.old) }
{
    match own {
        Some(line) => Some(line),
        None => heap.take(),
    }
}

// Where a node is held that was toggled on this line: one that was held gives the line back.
fn line_after(own: Option<u32>, line: u32, heap: &mut Heap) -> Option<u32>
    requires { IfSome own (λ own. contains heap.old.out own ≡ true) }
    ensures line { IsLineAfter own line heap.old heap.new result }
    ensures heap { IsLineHeap heap.new }
{
    let after = match own {
        Some(line) => {
            heap.give(line);
            None
        }
        None => Some(line),
    };
    // This call says what a heap keeps.
    let _ = heap.peak();
    after
}
