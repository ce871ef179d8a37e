// The AND depth of a settled graph.
ghost use Rattle.std.specs.Prelude.{◌≡◌, ◌≤◌, IfOk};
ghost use Rattle.std.specs.List.{AllByRecursion};
ghost use Rattle.revs_tape.specs.declared.limits.TheConstants.{MOST_WRITES};
ghost use Rattle.copied_plans.specs.Levels.{and_depth, base_level, node_level};

use claim_check::Settled;
use dependency_graph::{Base, Node};
use revc_base::Memory;
use std::alloc::Global;

/// The AND depth of a graph: the most ANDs on a path through it. In time linear in the nodes.
pub fn and_depth(alloc: Global, graph: &Settled) -> Result<u32, Memory>
    ensures { IfOk result (λ depth. depth ≡ and_depth graph.now.nodes) }
{
    let mut levels = Vec::with_capacity(alloc, graph.nodes() as usize)?;
    let mut depth: u32 = 0;
    for k in 0..graph.nodes() {
        let level = node_level(&levels, graph.node(k));
        levels.push(level)?;
        depth = depth.max(level);
    }
    Ok(depth)
}

// The level of a node, with those of the nodes before it.
fn node_level(levels: &[u32], node: Node) -> u32
    requires { AllByRecursion (λ level. level ≤ MOST_WRITES) levels.now }
    ensures { result ≡ node_level levels.now node }
{
    match node {
        Node::Not(a) => base_level(levels, a),
        Node::Xor(a, b) => base_level(levels, a).max(base_level(levels, b)),
        Node::And(a, b) => base_level(levels, a).max(base_level(levels, b)) + 1,
    }
}

fn base_level(levels: &[u32], base: Base) -> u32
    requires { AllByRecursion (λ level. level ≤ MOST_WRITES) levels.now }
    ensures level { result ≡ base_level levels.now base }
    ensures few { result ≤ MOST_WRITES }
{
    match base {
        Base::Input(_) => 0,
        Base::Node(j) => match levels.get(j as usize) {
            Some(level) => *level,
            None => 0,
        },
    }
}
