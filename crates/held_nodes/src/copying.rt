// The gates that copy the outputs to their lines, and the circuit of a finished plan.
ghost use Rattle.std.specs.Prelude.{◌≡◌, ◌+◌, ◌<◌, ◌≤◌, ◌∷◌, [], ◌++◌, ◌*◌, length, reverse, take};
ghost use Rattle.std.specs.Prelude.{IfOk, IfErr, OnErr, OnOk, sum_by, true, false};
ghost use Rattle.std.specs.List.{AllByRecursion};
ghost use Rattle.sum_graph.specs.Graphs.{IsSumGraph};
ghost use Rattle.circuit_plans.specs.declared.plan.TheConstants.{MOST_LINES};
ghost use Rattle.mct_circuit.specs.Gates.{AreGatesOn};
ghost use Rattle.sum_toggles.specs.Toggles.{toggle_weight};
ghost use Rattle.sum_graph.specs.Graphs.{first_work};
ghost use Rattle.held_nodes.specs.Moves.{copies_from};
ghost use Rattle.held_nodes.specs.inside.Kept.{CanCopy, HasProducts};

use bit_sums::Sum;
use circuit_plans::{PlanFault, Planned};
use mct_circuit::{Circuit, Gate, GateFault};
use revc_base::Memory;
use std::alloc::Global;
use sum_graph::SumGraph;
use sum_toggles::{append_sum, weight_within};

// The gates that add the outputs to the lines from `inputs` on.
pub fn copies_of(
    alloc: Global,
    inputs: u32,
    lines: &[Option<u32>],
    outputs: &[Sum],
) -> Result<Vec<Gate>, Memory>
    requires few { inputs + length outputs.now ≤ MOST_LINES }
    requires can { AllByRecursion (CanCopy (inputs + length outputs.now) lines.now inputs)
        outputs.now }
    ensures { IfOk result (λ copies. copies.items
        ≡ copies_from (inputs + length outputs.now) lines.now inputs outputs.now) }
{
    let first = inputs + outputs.len() as u32;
    let mut copies = Vec::new(alloc);
    for (k, sum) in outputs.iter().enumerate() {
        append_sum(&mut copies, first, lines, inputs + k as u32, sum)?;
    }
    Ok(copies)
}

// Whether the copies of the outputs weigh no more than `room`. It takes no memory.
pub fn copies_fit(outputs: &[Sum], room: u64) -> bool
    ensures fit { result ≡ true → sum_by toggle_weight outputs.now ≤ room }
    ensures heavy { result ≡ false → room < sum_by toggle_weight outputs.now }
    ensures products { result ≡ true → AllByRecursion HasProducts outputs.now }
{
    let mut left = room;
    for sum in outputs {
        let Some(weight) = weight_within(sum, left) else {
            return false;
        };
        left -= weight;
    }
    true
}

// The first work line.
pub fn first_work(graph: &SumGraph) -> u32
    ensures first { result ≡ first_work graph.now }
    ensures keeps { IsSumGraph graph.now }
{
    graph.inputs() + graph.outputs().len() as u32
}

// The plan of the gates, the copies, and the gates reversed.
pub fn plan_of(
    graph: &SumGraph,
    limit: u64,
    work: u32,
    mut gates: Vec<Gate>,
    mut copies: Vec<Gate>,
) -> Result<Planned, PlanFault>
    requires few { first_work graph.now + work ≤ MOST_LINES }
    requires gates { AreGatesOn (first_work graph.now + work) gates.items }
    requires copies { AreGatesOn (first_work graph.now + work) copies.items }
    requires room { 2 * length gates.items + length copies.items ≤ limit }
    ensures ok { IfOk result (λ planned. planned ≡ record {
      circuit = record {
        lines = first_work graph.now + work;
        limit = limit;
        gates = gates.items ++ copies.items ++ reverse gates.items;
      };
      inputs = graph.now.inputs;
      outputs = length graph.now.outputs;
      work = work;
    }) }
    ensures refused { IfErr result (λ fault. fault ≡ PlanFault.Memory _) }
{
    let count = gates.len() as u64;
    gates.append(&mut copies)?;
    let mut circuit = Circuit::from_gates(first_work(graph) + work, limit, gates);
    mirror(&mut circuit, count)?;
    let outputs = graph.outputs().len() as u32;
    Ok(Planned::new(circuit, graph.inputs(), outputs, work))
}

// Appends the first gates in reversed order where there is room for them.
fn mirror(circuit: &mut Circuit, count: u64) -> Result<(), Memory>
    requires first { count ≤ length circuit.old.gates }
    requires room { length circuit.old.gates + count ≤ circuit.old.limit }
    ensures { OnOk result (circuit.new ≡ record circuit.old
        { gates = circuit.old.gates ++ reverse (take count circuit.old.gates) }) }
{
    match circuit.append_reversed(count) {
        Ok(()) => Ok(()),
        Err(GateFault::Memory(memory)) => Err(memory),
        Err(GateFault::Full) => unreachable!(),
    }
}
