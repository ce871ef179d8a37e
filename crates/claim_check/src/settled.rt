// The settled graph.
ghost use Rattle.std.specs.Prelude.{◌≡◌, ◌<◌, length, slice_get, Some, IfOk};
ghost use Rattle.dependency_graph.specs.Folds.{graph_of};
ghost use Rattle.dependency_graph.specs.Uses.{last_use_in};
ghost use Rattle.claim_check.specs.Settled.{IsSettled, as_graph, SettledView};
ghost use Rattle.claim_check.specs.Measures.{IsSettledPart};
ghost use Rattle.claim_check.specs.inside.Fields.{view_of, IsKept};

use crate::keeping::kept_part;
use dependency_graph::{Graph, Node, Sig, last_uses};
use revc_base::Memory;
use revs_tape::Tape;
use std::marker::Model;

/// The nodes of a graph on which an output rests, renumbered in their order. Contracts see it as
/// the number of inputs and the lists of nodes and outputs.
#[derive(Drop)]
pub struct Settled {
    inputs: u32,
    nodes: Vec<Node>,
    outputs: Vec<Sig>,
    last_uses: Vec<u32>,
}

impl Model for Settled {
    ghost Value = { SettledView };

    ghost view = { view_of };

    ghost invariant = { IsKept };
}

impl Settled {
    /// The nodes of a tape's graph on which an output rests, in time linear in the graph.
    pub fn of(graph: &Graph, tape: &Tape) -> Result<Settled, Memory>
        requires { graph.now ≡ graph_of tape.now }
        ensures { IfOk result (IsSettledPart tape.now graph.now) }
    {
        let inputs = tape.inputs();
        let (nodes, outputs) = kept_part(graph, tape)?;
        let last_uses = last_uses(*tape.allocator(), &nodes, &outputs)?;
        Ok(Settled {
            inputs,
            nodes,
            outputs,
            last_uses,
        })
    }

    /// The number of inputs. It takes no memory.
    pub fn inputs(&self) -> u32
        ensures inputs { result ≡ self.now.inputs }
        ensures settled { IsSettled self.now }
    {
        let _ = &self.nodes;
        self.inputs
    }

    /// The number of nodes. It takes no memory.
    pub fn nodes(&self) -> u32
        ensures nodes { result ≡ length self.now.nodes }
        ensures settled { IsSettled self.now }
    {
        self.nodes.len() as u32
    }

    /// The node at place `n`, counted from 0. It takes no memory.
    pub fn node(&self, n: u32) -> Node
        requires { n < length self.now.nodes }
        ensures { slice_get self.now.nodes n ≡ Some result }
    {
        self.nodes[n as usize]
    }

    /// What each output is, in their order. It takes no memory.
    pub fn outputs(&self) -> &[Sig]
        ensures outputs { result.now ≡ self.now.outputs }
        ensures settled { IsSettled self.now }
    {
        &self.outputs
    }

    /// The last use of the node at place `n`: the greatest node that has it as an operand, the
    /// number of nodes where it is an output. It takes no memory.
    pub fn last_use(&self, n: u32) -> u32
        requires { n < length self.now.nodes }
        ensures { result ≡ last_use_in (as_graph self.now) n }
    {
        self.last_uses[n as usize]
    }
}
