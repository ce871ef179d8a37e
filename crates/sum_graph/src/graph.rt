// Graphs of sums.
ghost use Rattle.std.specs.Prelude.{◌≡◌, ◌<◌, length, slice_get, Some, IfOk};
ghost use Rattle.sum_graph.specs.Graphs.{IsSumGraph, IsLeanOf, SumGraphView};
ghost use Rattle.sum_graph.specs.Plain.{plain_of};
ghost use Rattle.sum_graph.specs.Uses.{sum_last_use};
ghost use Rattle.sum_graph.specs.inside.Fields.{view_of, IsKept};

use crate::plain::{plain_nodes, plain_outputs};
use crate::walk::Walk;
use bit_sums::Sum;
use claim_check::Settled;
use dependency_graph::last_uses;
use revc_base::Memory;
use std::alloc::Global;
use std::marker::Model;

/// A graph whose nodes are exclusive sums of inputs, of earlier nodes, and of products of two sums
/// of these. Contracts see it as the number of inputs and the lists of nodes and outputs.
#[derive(Drop)]
pub struct SumGraph {
    inputs: u32,
    nodes: Vec<Sum>,
    outputs: Vec<Sum>,
    last_uses: Vec<u32>,
}

impl Model for SumGraph {
    ghost Value = { SumGraphView };

    ghost view = { view_of };

    ghost invariant = { IsKept };
}

impl SumGraph {
    /// The lean graph of a settled graph: only what has to stand on a line of its own is a node, a
    /// value with a product in it, or of more than `short` bits or four, that is a factor or is
    /// used more than once. In time near linear in the nodes and in the terms of their sums.
    pub fn lean(alloc: Global, graph: &Settled, short: usize) -> Result<SumGraph, Memory>
        ensures lean { IfOk result (IsLeanOf graph.now) }
        ensures keeps { IfOk result IsSumGraph }
    {
        let mut walk = Walk::begun(alloc, graph, short)?;
        walk.walk(alloc)?;
        let outputs = walk.outputs(alloc)?;
        let nodes = walk.into_nodes(alloc)?;
        SumGraph::new(alloc, graph.inputs(), nodes, outputs)
    }

    /// The plain graph of a settled graph: each of its nodes is its own sum, with the operands in
    /// their order; an AND is one product of two bits. In time linear in the nodes and outputs.
    pub fn plain(alloc: Global, graph: &Settled) -> Result<SumGraph, Memory>
        ensures plain { IfOk result (λ plain. plain ≡ plain_of graph.now) }
        ensures keeps { IfOk result IsSumGraph }
    {
        let nodes = plain_nodes(alloc, graph)?;
        let outputs = plain_outputs(alloc, graph.outputs())?;
        SumGraph::new(alloc, graph.inputs(), nodes, outputs)
    }

    /// The graph of these nodes and outputs, each of whose sums is of inputs and earlier nodes. In
    /// time linear in the bits.
    pub fn new(
        alloc: Global,
        inputs: u32,
        nodes: Vec<Sum>,
        outputs: Vec<Sum>,
    ) -> Result<SumGraph, Memory>
        requires { IsSumGraph
            (record { inputs = inputs; nodes = nodes.items; outputs = outputs.items }) }
        ensures { IfOk result (λ graph.
            graph ≡ record { inputs = inputs; nodes = nodes.items; outputs = outputs.items }) }
    {
        let last_uses = last_uses(alloc, &nodes, &outputs)?;
        Ok(SumGraph {
            inputs,
            nodes,
            outputs,
            last_uses,
        })
    }

    /// The number of inputs. It takes no memory.
    pub fn inputs(&self) -> u32
        ensures inputs { result ≡ self.now.inputs }
        ensures keeps { IsSumGraph self.now }
    {
        let _ = &self.nodes;
        self.inputs
    }

    /// The number of nodes. It takes no memory.
    pub fn nodes(&self) -> u32
        ensures nodes { result ≡ length self.now.nodes }
        ensures keeps { IsSumGraph self.now }
    {
        self.nodes.len() as u32
    }

    /// The sum of the node at place `n`, counted from 0. It takes no memory.
    pub fn node(&self, n: u32) -> &Sum
        requires { n < length self.now.nodes }
        ensures { slice_get self.now.nodes n ≡ Some result.now }
    {
        &self.nodes[n as usize]
    }

    /// The sum of each output, in their order. It takes no memory.
    pub fn outputs(&self) -> &[Sum]
        ensures outputs { result.now ≡ self.now.outputs }
        ensures keeps { IsSumGraph self.now }
    {
        &self.outputs
    }

    /// The last use of the node at place `n`: the greatest node that is made of it, the number of
    /// nodes where an output is, itself where neither. It takes no memory.
    pub fn last_use(&self, n: u32) -> u32
        requires { n < length self.now.nodes }
        ensures { result ≡ sum_last_use self.now n }
    {
        self.last_uses[n as usize]
    }
}
