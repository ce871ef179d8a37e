// Which nodes of a settled graph are shared.
ghost use Rattle.std.specs.Prelude.{◌≡◌, ◌<◌, ◌≤◌, length, map, IfOk, OnOk};
ghost use Rattle.claim_check.specs.Settled.{IsSettled};
ghost use Rattle.dependency_graph.specs.Graphs.{base_of, node_of, nodes_among, operands};
ghost use Rattle.sum_graph.specs.inside.Marks.{after_use, is_shared_mark, marked, marked_factor};
ghost use Rattle.sum_graph.specs.inside.Marks.{AreNodesMarked, AreOutputsMarked, AreWithin};
ghost use Rattle.sum_graph.specs.inside.Marks.{marked_node};
ghost use Rattle.sum_graph.specs.inside.Marks.{mark_at, marked_output};
ghost use Rattle.sum_graph.specs.inside.Walks.{AreShared};

use claim_check::Settled;
use dependency_graph::{Base, Node, Sig};
use revc_base::Memory;
use std::alloc::Global;

/// How often a node is used, as far as the uses were gone through.
#[derive(Clone, Copy, PartialEq, Eq)]
pub enum Use {
    Never,
    Once,
    /// More than once, or as a factor.
    Shared,
}

impl Use {
    // After one more use.
    fn once_more(self) -> Use
        ensures { result ≡ after_use self }
    {
        match self {
            Use::Never => Use::Once,
            Use::Once | Use::Shared => Use::Shared,
        }
    }

    fn is_shared(self) -> bool
        ensures { result ≡ is_shared_mark self }
    {
        self == Use::Shared
    }
}

/// For each node, whether it is a factor of an AND, or is used more than once.
pub fn shared_nodes(alloc: Global, graph: &Settled) -> Result<Vec<bool>, Memory>
    ensures shared { IfOk result (λ shared.
        AreShared graph.now.nodes graph.now.outputs shared.items) }
    ensures settled { OnOk result (IsSettled graph.now) }
{
    let mut uses = vec![in alloc; Use::Never; graph.nodes() as usize]?;
    mark_nodes(&mut uses, graph);
    mark_outputs(&mut uses, graph);
    let mut shared = Vec::with_capacity(alloc, uses.len())?;
    for mark in &uses {
        shared.push(mark.is_shared())?;
    }
    Ok(shared)
}

// Marks the uses by nodes.
fn mark_nodes(uses: &mut Vec<Use>, graph: &Settled)
    requires { AreNodesMarked graph.now 0 uses.old.items }
    ensures { AreNodesMarked graph.now (length graph.now.nodes) uses.new.items }
{
    for k in 0..graph.nodes() {
        mark_node(uses, graph.node(k));
    }
}

// Marks the uses by outputs.
fn mark_outputs(uses: &mut Vec<Use>, graph: &Settled)
    requires { AreNodesMarked graph.now (length graph.now.nodes) uses.old.items }
    ensures { AreOutputsMarked graph.now (length graph.now.outputs) uses.new.items }
{
    for sig in graph.outputs() {
        mark_output(uses, *sig);
    }
}

fn mark_node(uses: &mut Vec<Use>, node: Node)
    requires { AreWithin (length uses.old.items) (nodes_among (operands node)) }
    ensures { uses.new.items ≡ marked_node node uses.old.items }
{
    match node {
        Node::Not(a) => mark(uses, a),
        Node::Xor(a, b) => {
            mark(uses, a);
            mark(uses, b);
        }
        Node::And(a, b) => {
            mark_factor(uses, a);
            mark_factor(uses, b);
        }
    }
}

fn mark_output(uses: &mut Vec<Use>, sig: Sig)
    requires { AreWithin (length uses.old.items) (nodes_among (base_of sig)) }
    ensures { uses.new.items ≡ marked_output sig uses.old.items }
{
    match sig {
        Sig::Const(_) => {}
        Sig::Is(base) => mark(uses, base),
    }
}

// Marks a use of a base.
fn mark(uses: &mut Vec<Use>, base: Base)
    requires { AreWithin (length uses.old.items) (node_of base) }
    ensures { uses.new.items ≡ marked base uses.old.items }
{
    match base {
        Base::Input(_) => {}
        Base::Node(k) => uses[k as usize] = uses[k as usize].once_more(),
    }
}

// Marks a use of a base as a factor.
fn mark_factor(uses: &mut Vec<Use>, base: Base)
    requires { AreWithin (length uses.old.items) (node_of base) }
    ensures { uses.new.items ≡ marked_factor base uses.old.items }
{
    match base {
        Base::Input(_) => {}
        Base::Node(k) => uses[k as usize] = Use::Shared,
    }
}
