// The table of last uses.
ghost use Rattle.std.specs.Prelude.{◌≡◌, ◌≤◌, List, length, IfOk};
ghost use Rattle.std.specs.List.{flat_map};
ghost use Rattle.list_facts.specs.Lists.{below};
ghost use Rattle.revs_tape.specs.declared.limits.TheConstants.{MOST_WRITES};
ghost use Rattle.dependency_graph.specs.declared.node.Base.{Base};
ghost use Rattle.dependency_graph.specs.Uses.{last_uses_by, with_use, with_uses};
ghost use Rattle.dependency_graph.specs.inside.Tables.{with_steps};
ghost use Rattle.dependency_graph.specs.Graphs.{itself, operands, base_of};

use crate::{Base, Node, Sig};
use revc_base::Memory;
use std::alloc::Global;

/// What is made of bases: a base itself, a node, what an output is, or a sum.
pub trait MadeOfBases {
    // The bases that it is made of.
    ghost bases: { Self → List Base };

    /// Sets the last use of each of these bases in a table with a place for each node.
    fn set_uses(&self, table: &mut [u32], place: u32)
        ensures { table.new ≡ with_uses table.old (bases self.now) place };
}

// Sets the last use of a base, where it is one of the nodes.
fn set_use(table: &mut [u32], base: Base, place: u32)
    ensures { table.new ≡ with_use table.old base place }
{
    let Base::Node(n) = base else {
        return;
    };
    let n = n as usize;
    if n < table.len() {
        table[n] = place;
    }
}

impl MadeOfBases for Base {
    ghost bases = { itself };

    fn set_uses(&self, table: &mut [u32], place: u32) {
        set_use(table, *self, place);
    }
}

impl MadeOfBases for Node {
    ghost bases = { operands };

    fn set_uses(&self, table: &mut [u32], place: u32) {
        match *self {
            Node::Not(a) => set_use(table, a, place),
            Node::Xor(a, b) | Node::And(a, b) => {
                set_use(table, a, place);
                set_use(table, b, place);
            }
        }
    }
}

impl MadeOfBases for Sig {
    ghost bases = { base_of };

    fn set_uses(&self, table: &mut [u32], place: u32) {
        if let Sig::Is(base) = *self {
            set_use(table, base, place);
        }
    }
}

fn set_node_uses<N: MadeOfBases>(table: &mut [u32], nodes: &[N])
    requires { length nodes.now ≤ MOST_WRITES }
    ensures { table.new ≡ with_steps N.bases table.old 0 nodes.now }
{
    for (place, node) in nodes.iter().enumerate() {
        node.set_uses(table, place as u32);
    }
}

/// Sets the last use of each base that one of these is made of, in their order.
pub fn set_all_uses<T: MadeOfBases>(table: &mut [u32], all: &[T], place: u32)
    ensures { table.new ≡ with_uses table.old (flat_map T.bases all.now) place }
{
    for one in all {
        one.set_uses(table, place);
    }
}

// The table of so many nodes of which none is used: each is its own last use.
fn unused(alloc: Global, count: u32) -> Result<Vec<u32>, Memory>
    ensures { IfOk result (λ table. table.items ≡ below count) }
{
    let mut table = Vec::with_capacity(alloc, count as usize)?;
    for n in 0..count {
        table.push(n)?;
    }
    Ok(table)
}

// A table in which each node is its own last use, with the nodes that are made of each, and at last
// the end where an output is.
fn filled<N: MadeOfBases, O: MadeOfBases>(
    mut table: Vec<u32>,
    nodes: &[N],
    outputs: &[O],
) -> Vec<u32>
    requires { length nodes.now ≤ MOST_WRITES }
    ensures { result.items ≡ with_uses (with_steps N.bases table.items 0 nodes.now)
        (flat_map O.bases outputs.now) (length nodes.now) }
{
    set_node_uses(&mut table, nodes);
    set_all_uses(&mut table, outputs, nodes.len() as u32);
    table
}

/// The last use of each of these nodes in a graph with these outputs, in time linear in both: the
/// greatest node that is made of it, the number of nodes where an output is, itself where neither.
pub fn last_uses<N: MadeOfBases, O: MadeOfBases>(
    alloc: Global,
    nodes: &[N],
    outputs: &[O],
) -> Result<Vec<u32>, Memory>
    requires { length nodes.now ≤ MOST_WRITES }
    ensures { IfOk result (λ table. table.items
        ≡ last_uses_by N.bases O.bases nodes.now outputs.now) }
{
    Ok(filled(unused(alloc, nodes.len() as u32)?, nodes, outputs))
}
