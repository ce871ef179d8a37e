// Circuits in the making, seen by the sets of their lines.
ghost use Rattle.std.specs.Prelude.{◌≡◌, ◌+◌, ◌<◌, ◌≤◌, ◌↔◌, [], ◌++◌, length};
ghost use Rattle.std.specs.Prelude.{if◌then◌else◌, IfOk, OnOk, OnErr, IfSome, IsTrue, IsSome};
ghost use Rattle.std.specs.Prelude.{replicate};
ghost use Rattle.circuit_plans.specs.declared.plan.TheConstants.{MOST_LINES};
ghost use Rattle.sum_graph.specs.Graphs.{first_work, sum_outputs};
ghost use Rattle.circuit_plans.specs.Plans.{HasPortLines, IsNarrowPlan};
ghost use Rattle.mct_circuit.specs.Gates.{AreGatesOn};
ghost use Rattle.line_states.specs.Gathers.{set_at};
ghost use Rattle.line_states.specs.States.{AreEnded, AreStates, all_sums, begun, can_copy};
ghost use Rattle.line_states.specs.States.{can_toggle, copied, has_line, has_room, planned_of};
ghost use Rattle.line_states.specs.States.{given_lines, planned_of_parts, start_sets, sum_at};
ghost use Rattle.line_states.specs.States.{StatesView};
ghost use Rattle.line_states.specs.States.{toggled, with_line, with_set};
ghost use Rattle.line_states.specs.inside.Places.{MovesSets};

use crate::ending::{Ends, are_ended};
use crate::gates::{copy_gates, toggle_gates};
use crate::gathers::Pair;
use crate::placing::all_fit;
use crate::sets::toggled_set;
use bit_sums::{Sum, apart};
use circuit_plans::{Budget, Planned, Start};
use dependency_graph::Base;
use mct_circuit::{Circuit, Gate};
use revc_base::{Key, Memory};
use std::alloc::Global;
use std::marker::Model;
use sum_graph::SumGraph;

/// A circuit in the making over a graph of sums, within a budget. Its first lines are those of the
/// inputs and then those of the outputs. Behind its gates, each line holds on every input the
/// exclusive or of the bits of its set: these are inputs, nodes, and the outputs, which count as
/// nodes behind the nodes of the graph.
#[derive(Drop)]
pub struct LineStates<'s> {
    graph: &'s SumGraph,
    budget: &'s Budget,
    start: Start,
    gates: Vec<Gate>,
    sets: Vec<Key<Base>>,
}

impl<'s> Model for LineStates<'s> {
    ghost Value = { StatesView };

    ghost view = { λ s. record {
      graph = s.graph.now;
      budget = s.budget.now;
      start = s.start;
      gates = s.gates.items;
      sets = s.sets.items;
    } };

    ghost invariant = { λ s. AreStates (record {
      graph = s.graph.now;
      budget = s.budget.now;
      start = s.start;
      gates = s.gates.items;
      sets = s.sets.items;
    }) };
}

impl<'s> LineStates<'s> {
    /// No gates yet: each input line holds its input, each output line a bit of its own where it
    /// may hold any, and else nothing, and there are no other lines.
    pub fn new(
        alloc: Global,
        graph: &'s SumGraph,
        budget: &'s Budget,
        start: Start,
    ) -> Result<LineStates<'s>, Memory>
        requires { HasPortLines (first_work graph.now) budget.now }
        ensures { IfOk result (λ states. states ≡ begun graph.now budget.now start) }
    {
        // This call says that the budget has few lines.
        let _ = budget.lines();
        let given = given_lines(graph, start);
        let ports = graph.inputs() + graph.outputs().len() as u32;
        let sets = start_sets(alloc, given, ports - given)?;
        Ok(LineStates {
            graph,
            budget,
            start,
            gates: Vec::new(alloc),
            sets,
        })
    }

    /// The number of lines. It takes no memory.
    pub fn lines(&self) -> u32
        ensures lines { result ≡ length self.now.sets }
        ensures few { length self.now.sets ≤ MOST_LINES }
    {
        self.sets.len() as u32
    }

    /// The set of a line. It takes no memory.
    pub fn set(&self, line: u32) -> &[Base]
        requires { line < length self.now.sets }
        ensures { result.now ≡ set_at self.now.sets line }
    {
        self.sets[line as usize].items()
    }

    /// One line more, which holds nothing; false where the budget has no more lines.
    pub fn push_line(&mut self, alloc: Global) -> Result<bool, Memory>
        ensures answer { IfOk result (λ done. done ≡ has_line self.old) }
        ensures done { IfOk result (λ done. self.new
            ≡ if done then with_line self.old else self.old) }
        ensures err { OnErr result (self.new ≡ self.old) }
    {
        let lines = self.sets.len() as u32;
        if lines + self.budget.borrow() >= self.budget.lines() {
            return Ok(false);
        }
        self.sets.push(Key::new(Vec::new(alloc)))?;
        Ok(true)
    }

    /// Adds the set of one line to that of another; false where these are not two lines, or the
    /// budget has no more gates.
    pub fn copy(&mut self, alloc: Global, from: u32, to: u32) -> Result<bool, Memory>
        ensures answer { IfOk result (λ done. done ≡ can_copy self.old from to) }
        ensures done { IfOk result (λ done. self.new
            ≡ if done then copied self.old from to else self.old) }
        ensures err { OnErr result (self.new ≡ self.old) }
    {
        let lines = self.sets.len();
        if from as usize >= lines || to as usize >= lines || from == to {
            return Ok(false);
        }
        let set = apart(
            alloc,
            self.sets[to as usize].items(),
            self.sets[from as usize].items(),
        )?;
        let more = copy_gates(alloc, from, to)?;
        self.change(to, set, more)
    }

    /// Adds a node, together with the bits of its sum, to the set of the line `onto`. Each product
    /// of the sum is a flip under two lines, on which its factors are gathered before and taken off
    /// again behind; `pairs` says where, in the order of the products. False where the pairs are
    /// not the products, where one of their lines is `onto`, or the budget has too few gates.
    pub fn toggle(
        &mut self,
        alloc: Global,
        node: u32,
        onto: u32,
        pairs: &[Pair],
    ) -> Result<bool, Memory>
        ensures answer { IfOk result (λ done. done ≡ can_toggle self.old node onto pairs.now) }
        ensures done { IfOk result (λ done. self.new
            ≡ if done then toggled self.old node onto pairs.now else self.old) }
        ensures err { OnErr result (self.new ≡ self.old) }
    {
        let sums = self.graph.nodes() as usize + self.graph.outputs().len();
        if node as usize >= sums || onto as usize >= self.sets.len() {
            return Ok(false);
        }
        let sum = sum_at(self.graph, node);
        if !all_fit(alloc, &self.sets, onto, pairs, sum.products())? {
            return Ok(false);
        }
        let set = toggled_set(alloc, self.sets[onto as usize].items(), node, sum)?;
        let more = toggle_gates(alloc, onto, pairs, sum.one())?;
        self.change(onto, set, more)
    }

    // With more gates, and another set of a line; where the budget has too few gates for that,
    // nothing changes, and the answer is false.
    fn change(&mut self, line: u32, set: Vec<Base>, mut more: Vec<Gate>) -> Result<bool, Memory>
        requires { MovesSets self.old line set.items more.items }
        ensures answer { IfOk result (λ done. done ≡ has_room self.old more.items) }
        ensures done { IfOk result (λ done. self.new
            ≡ if done then with_set self.old line set.items more.items else self.old) }
        ensures err { OnErr result (self.new ≡ self.old) }
    {
        if self.budget.gates() - (self.gates.len() as u64) < more.len() as u64 {
            return Ok(false);
        }
        self.gates.append(&mut more)?;
        self.sets[line as usize] = Key::new(set);
        Ok(true)
    }

    /// The plan, exactly where each input line holds its input alone, each output line its output
    /// beside what it held, and every other line nothing. It takes no memory.
    pub fn finish(self) -> Option<Planned>
        ensures exact { IsSome result ↔ AreEnded self.entry }
        ensures plan { IfSome result (λ planned. planned ≡ planned_of self.entry) }
        ensures narrow { IfSome result (IsNarrowPlan self.entry.start self.entry.graph.inputs
            (length self.entry.graph.outputs) (sum_outputs self.entry.graph) self.entry.budget) }
    {
        if !self.is_ended() {
            return None;
        }
        let LineStates {
            graph,
            budget,
            gates,
            sets,
            ..
        } = self;
        Some(plan_of(graph, budget, sets.len() as u32, gates))
    }

    fn is_ended(&self) -> bool
        ensures ended { IsTrue result ↔ AreEnded self.now }
        ensures keeps { AreStates self.now }
    {
        let sets = self.sets.as_slice();
        let (inputs, rest) = sets.split_at(self.graph.inputs() as usize);
        let (outputs, work) = rest.split_at(self.graph.outputs().len());
        let ends = Ends {
            start: self.start,
            inputs: self.graph.inputs(),
            nodes: self.graph.nodes(),
        };
        are_ended(ends, inputs, outputs, work)
    }
}

// How many of the first lines are given any bits.
fn given_lines(graph: &SumGraph, start: Start) -> u32
    ensures lines { result ≡ given_lines start graph.now }
    ensures few { result ≤ first_work graph.now }
{
    match start {
        Start::Any => graph.inputs() + graph.outputs().len() as u32,
        Start::Zero => graph.inputs(),
    }
}

// The sum of a node, or of an output behind the nodes.
fn sum_at(graph: &SumGraph, node: u32) -> &Sum
    requires { node < length (all_sums graph.now) }
    ensures { result.now ≡ sum_at graph.now node }
{
    let nodes = graph.nodes();
    if node < nodes {
        graph.node(node)
    } else {
        &graph.outputs()[(node - nodes) as usize]
    }
}

// The plan of these gates.
fn plan_of(graph: &SumGraph, budget: &Budget, lines: u32, gates: Vec<Gate>) -> Planned
    requires ports { first_work graph.now ≤ lines }
    requires gates { AreGatesOn lines gates.items }
    requires room { length gates.items ≤ budget.now.gates }
    ensures { result ≡ planned_of_parts graph.now budget.now lines gates.items }
{
    let circuit = Circuit::from_gates(lines, budget.gates(), gates);
    let outputs = graph.outputs().len() as u32;
    let work = lines - (graph.inputs() + outputs);
    Planned::new(circuit, graph.inputs(), outputs, work)
}

// The sets at the beginning.
fn start_sets(alloc: Global, given: u32, others: u32) -> Result<Vec<Key<Base>>, Memory>
    ensures { IfOk result (λ sets. sets.items ≡ start_sets given others) }
{
    let mut sets = Vec::new(alloc);
    for i in 0..given {
        let set = Vec::from_slice(alloc, &[Base::Input(i)])?;
        sets.push(Key::new(set))?;
    }
    put_empty(alloc, &mut sets, others)?;
    Ok(sets)
}

// Appends so many sets of no bit.
fn put_empty(alloc: Global, sets: &mut Vec<Key<Base>>, count: u32) -> Result<(), Memory>
    ensures { OnOk result (sets.new.items ≡ sets.old.items ++ replicate count []) }
{
    for _i in 0..count {
        sets.push(Key::new(Vec::new(alloc)))?;
    }
    Ok(())
}
