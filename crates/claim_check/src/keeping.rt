// The nodes on which an output rests, found and renumbered.
ghost use Rattle.std.specs.Prelude.{◌≡◌, ◌≤◌, length, map, replicate, false, IfOk, slice_get, Some};
ghost use Rattle.std.specs.List.{flat_map};
ghost use Rattle.list_facts.specs.Bits.{bit_of};
ghost use Rattle.list_facts.specs.Lists.{below};
ghost use Rattle.revs_tape.specs.declared.limits.TheConstants.{MOST_WRITES};
ghost use Rattle.revs_tape.specs.Measures.{inputs_of};
ghost use Rattle.revs_tape.specs.Tapes.{IsTape};
ghost use Rattle.dependency_graph.specs.Folds.{graph_of};
ghost use Rattle.dependency_graph.specs.Graphs.{base_of, operands};
ghost use Rattle.claim_check.specs.Kept.{kept_nodes, rank, renumbered, renumbered_base};
ghost use Rattle.claim_check.specs.Kept.{renumbered_sig};
ghost use Rattle.claim_check.specs.inside.Marks.{number_in, with_mark, with_marks, with_nodes};
ghost use Rattle.claim_check.specs.Measures.{IsSettledPart};

use dependency_graph::{Base, Graph, Node, Sig};
use revc_base::Memory;
use revs_tape::Tape;
use std::alloc::Global;

// ---- marks

// Marks a base, where it is a node.
fn mark(marks: &mut [bool], base: Base)
    ensures { marks.new ≡ with_mark marks.old base }
{
    let Base::Node(k) = base else {
        return;
    };
    let k = k as usize;
    if k < marks.len() {
        marks[k] = true;
    }
}

fn mark_operands(marks: &mut [bool], node: Node)
    ensures { marks.new ≡ with_marks marks.old (operands node) }
{
    match node {
        Node::Not(a) => mark(marks, a),
        Node::Xor(a, b) | Node::And(a, b) => {
            mark(marks, a);
            mark(marks, b);
        }
    }
}

fn mark_outputs(marks: &mut [bool], outputs: &[Sig])
    ensures { marks.new ≡ with_marks marks.old (flat_map base_of outputs.now) }
{
    for sig in outputs {
        if let Sig::Is(base) = *sig {
            mark(marks, base);
        }
    }
}

// By falling nodes, so that each is marked before it is looked at.
fn mark_nodes(marks: &mut [bool], graph: &Graph)
    requires { length marks.old ≡ length graph.now.nodes }
    ensures { marks.new ≡ with_nodes marks.old 0 graph.now.nodes }
{
    for k in (0..graph.nodes()).rev() {
        if marks[k as usize] {
            mark_operands(marks, graph.node(k));
        }
    }
}

// The mark of each node: whether an output rests on it.
fn kept_marks(alloc: Global, graph: &Graph) -> Result<Vec<bool>, Memory>
    ensures one_each { IfOk result (λ marks. length marks.items ≡ length graph.now.nodes) }
    ensures marks { IfOk result (λ marks. marks.items
        ≡ with_nodes (with_marks (replicate (length graph.now.nodes) false)
        (flat_map base_of graph.now.outputs)) 0 graph.now.nodes) }
{
    let mut marks = vec![in alloc; false; graph.nodes() as usize]?;
    let all = marks.as_mut_slice();
    mark_outputs(all, graph.outputs());
    mark_nodes(all, graph);
    Ok(marks)
}

// ---- new numbers

// The number of marked nodes below each node.
fn ranks(alloc: Global, marks: &[bool]) -> Result<Vec<u32>, Memory>
    requires { length marks.now ≤ MOST_WRITES }
    ensures { IfOk result (λ table. table.items
        ≡ map (rank (bit_of marks.now)) (below (length marks.now))) }
{
    let mut table = Vec::with_capacity(alloc, marks.len())?;
    let mut count = 0;
    for mark in marks {
        table.push(count)?;
        count += u32::from(*mark);
    }
    Ok(table)
}

fn renumbered_base(table: &[u32], base: Base) -> Base
    ensures { result ≡ renumbered_base (number_in table.now) base }
{
    match base {
        Base::Input(i) => Base::Input(i),
        Base::Node(k) => Base::Node(table.get(k as usize).copied().unwrap_or(0)),
    }
}

fn renumbered(table: &[u32], node: Node) -> Node
    ensures { result ≡ renumbered (number_in table.now) node }
{
    match node {
        Node::Not(a) => Node::Not(renumbered_base(table, a)),
        Node::Xor(a, b) => Node::Xor(renumbered_base(table, a), renumbered_base(table, b)),
        Node::And(a, b) => Node::And(renumbered_base(table, a), renumbered_base(table, b)),
    }
}

fn renumbered_sig(table: &[u32], sig: Sig) -> Sig
    ensures { result ≡ renumbered_sig (number_in table.now) sig }
{
    match sig {
        Sig::Const(bit) => Sig::Const(bit),
        Sig::Is(base) => Sig::Is(renumbered_base(table, base)),
    }
}

// The marked nodes, renumbered.
fn kept_nodes(
    alloc: Global,
    graph: &Graph,
    marks: &[bool],
    table: &[u32],
) -> Result<Vec<Node>, Memory>
    requires { length marks.now ≡ length graph.now.nodes }
    ensures { IfOk result (λ nodes. nodes.items
        ≡ kept_nodes (bit_of marks.now) (number_in table.now) 0 graph.now.nodes) }
{
    let mut nodes = Vec::new(alloc);
    for k in 0..graph.nodes() {
        if marks[k as usize] {
            nodes.push(renumbered(table, graph.node(k)))?;
        }
    }
    Ok(nodes)
}

// The outputs of a graph, renumbered.
fn kept_outputs(alloc: Global, outputs: &[Sig], table: &[u32]) -> Result<Vec<Sig>, Memory>
    ensures { IfOk result (λ found. found.items
        ≡ map (renumbered_sig (number_in table.now)) outputs.now) }
{
    Ok(
        outputs
            .iter()
            .map(|sig| renumbered_sig(table, *sig))
            .collect(alloc)?,
    )
}

// ---- the whole

// The nodes on which an output rests, renumbered, and the outputs made of them.
pub fn kept_part(graph: &Graph, tape: &Tape) -> Result<(Vec<Node>, Vec<Sig>), Memory>
    requires of_tape { graph.now ≡ graph_of tape.now }
    requires tape { IsTape tape.now }
    ensures { IfOk result (λ part. IsSettledPart tape.now graph.now (record {
      inputs = inputs_of tape.now;
      nodes = part.0.items;
      outputs = part.1.items;
    })) }
{
    let alloc = *tape.allocator();
    let marks = kept_marks(alloc, graph)?;
    let table = ranks(alloc, &marks)?;
    let nodes = kept_nodes(alloc, graph, &marks, &table)?;
    let outputs = kept_outputs(alloc, graph.outputs(), &table)?;
    Ok((nodes, outputs))
}
