// The walk over the nodes of a settled graph, in their order.
ghost use Rattle.std.specs.Prelude.{◌≡◌, ◌+◌, ◌<◌, ◌≤◌, [], length, IfOk, OnOk};
ghost use Rattle.claim_check.specs.Settled.{IsSettled};
ghost use Rattle.sum_graph.specs.inside.Walks.{AreShared, CanOutput, IsEnded, IsOutputSum};
ghost use Rattle.sum_graph.specs.inside.Walks.{IsWalked};

use crate::placing::place;
use crate::shared::shared_nodes;
use crate::slot::{Slot, sum_of, take};
use bit_sums::{GrowingSum, Sum};
use claim_check::Settled;
use dependency_graph::Sig;
use indexmap::IndexSet;
use revc_base::Memory;
use std::alloc::Global;

/// A settled graph, which of its nodes are shared, how many bits a short sum has at most, where the
/// sums of the nodes so far stand, and the nodes of the lean graph.
#[derive(Drop)]
pub struct Walk<'s> {
    graph: &'s Settled,
    shared: Vec<bool>,
    short: usize,
    slots: Vec<Slot>,
    nodes: IndexSet<Sum>,
}

impl<'s> Walk<'s> {
    /// No node was walked over.
    pub fn begun(alloc: Global, graph: &'s Settled, short: usize) -> Result<Walk<'s>, Memory>
        ensures graph { IfOk result (λ walk. walk.graph.now ≡ graph.now) }
        ensures shared { IfOk result (λ walk.
            AreShared graph.now.nodes graph.now.outputs walk.shared.items) }
        ensures walked { IfOk result (λ walk.
            IsWalked graph.now walk.shared.items walk.slots.items walk.nodes.keys 0) }
    {
        Ok(Walk {
            graph,
            shared: shared_nodes(alloc, graph)?,
            short,
            slots: Vec::new(alloc),
            nodes: IndexSet::new(alloc),
        })
    }

    /// Walks over all nodes.
    pub fn walk(&mut self, alloc: Global) -> Result<(), Memory>
        requires shared { AreShared self.old.graph.now.nodes self.old.graph.now.outputs
            self.old.shared.items }
        requires begun { IsWalked self.old.graph.now self.old.shared.items self.old.slots.items
            self.old.nodes.keys 0 }
        ensures graph { self.new.graph.now ≡ self.old.graph.now }
        ensures shared { self.new.shared.items ≡ self.old.shared.items }
        ensures walked { OnOk result (IsWalked self.old.graph.now self.old.shared.items
            self.new.slots.items self.new.nodes.keys (length self.old.graph.now.nodes)) }
    {
        for k in 0..self.graph.nodes() {
            self.step(alloc, k)?;
        }
        Ok(())
    }

    // Makes the sum of a node, and places it.
    fn step(&mut self, alloc: Global, k: u32) -> Result<(), Memory>
        requires shared { AreShared self.old.graph.now.nodes self.old.graph.now.outputs
            self.old.shared.items }
        requires place { k < length self.old.graph.now.nodes }
        requires walked { IsWalked self.old.graph.now self.old.shared.items self.old.slots.items
            self.old.nodes.keys k }
        ensures graph { self.new.graph.now ≡ self.old.graph.now }
        ensures shared { self.new.shared.items ≡ self.old.shared.items }
        ensures walked { OnOk result (IsWalked self.old.graph.now self.old.shared.items
            self.new.slots.items self.new.nodes.keys (k + 1)) }
    {
        let sum = sum_of(alloc, &mut self.slots, self.graph.node(k))?;
        let slot = place(
            alloc,
            &mut self.nodes,
            sum,
            self.shared[k as usize],
            self.short,
        )?;
        self.slots.push(slot)?;
        Ok(())
    }

    /// The sums of the outputs, after all nodes were walked over.
    pub fn outputs(&mut self, alloc: Global) -> Result<Vec<Sum>, Memory>
        requires { IsWalked self.old.graph.now self.old.shared.items self.old.slots.items
            self.old.nodes.keys (length self.old.graph.now.nodes) }
        ensures graph { self.new.graph.now ≡ self.old.graph.now }
        ensures nodes { self.new.nodes.keys ≡ self.old.nodes.keys }
        ensures ended { IfOk result (λ sums. IsEnded self.old.graph.now self.old.shared.items
            self.new.slots.items self.old.nodes.keys sums.items
            (length self.old.graph.now.outputs)) }
    {
        let mut sums = Vec::new(alloc);
        for sig in self.graph.outputs() {
            sums.push(output(alloc, &mut self.slots, *sig)?)?;
        }
        Ok(sums)
    }

    /// The nodes of the lean graph.
    pub fn into_nodes(self, alloc: Global) -> Result<Vec<Sum>, Memory>
        ensures { IfOk result (λ nodes. nodes.items ≡ self.entry.nodes.keys) }
    {
        let Walk { nodes, .. } = self;
        let nodes: Vec<Sum> = nodes.into_iter().collect(alloc)?;
        Ok(nodes)
    }
}

// The sum of an output.
fn output(alloc: Global, slots: &mut Vec<Slot>, sig: Sig) -> Result<Sum, Memory>
    requires { CanOutput slots.old.items sig }
    ensures { IfOk result (IsOutputSum sig slots.old.items slots.new.items) }
{
    match sig {
        Sig::Const(bit) => GrowingSum::constant(alloc, bit).finish(),
        Sig::Is(base) => {
            let sum = take(alloc, slots, base)?;
            sum.finish()
        }
    }
}
