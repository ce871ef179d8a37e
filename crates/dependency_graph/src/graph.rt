// The graph of a tape.
ghost use Rattle.std.specs.Prelude.{◌≡◌, ◌<◌, length, slice_get, Some, IfOk};
ghost use Rattle.revs_tape.specs.Measures.{inputs_of, writes_of};
ghost use Rattle.revs_tape.specs.Tapes.{IsKnown};
ghost use Rattle.dependency_graph.specs.Graphs.{IsGraph, IsGraphOf, sig_of, GraphView};
ghost use Rattle.dependency_graph.specs.Folds.{graph_of};
ghost use Rattle.dependency_graph.specs.Uses.{last_use_in};
ghost use Rattle.dependency_graph.specs.inside.Fields.{view_of, IsKept};

use crate::fold::{fold, sig_of, sigs_of};
use crate::uses::last_uses;
use crate::{Node, Sig};
use revc_base::Memory;
use revs_tape::{Ref, Tape};
use std::marker::Model;

/// The graph of a tape. Contracts see it as the number of inputs and the lists of nodes, of what
/// each write became, and of what each output became.
#[derive(Drop)]
pub struct Graph {
    inputs: u32,
    nodes: Vec<Node>,
    sigs: Vec<Sig>,
    outputs: Vec<Sig>,
    last_uses: Vec<u32>,
}

impl Model for Graph {
    ghost Value = { GraphView };

    ghost view = { view_of };

    ghost invariant = { IsKept };
}

impl Graph {
    /// The graph of a tape, in time linear in it. Each write is folded by its own operands alone,
    /// and equal nodes are not shared.
    pub fn of(tape: &Tape) -> Result<Graph, Memory>
        ensures fold { IfOk result (λ graph. graph ≡ graph_of tape.now) }
        ensures of_tape { IfOk result (λ graph. IsGraphOf tape.now graph) }
        ensures graph { IfOk result (λ graph. IsGraph graph) }
    {
        let folding = fold(tape)?;
        let alloc = *tape.allocator();
        let outputs = sigs_of(alloc, &folding.sigs, tape.outputs())?;
        let last_uses = last_uses(alloc, &folding.nodes, &outputs)?;
        Ok(Graph {
            inputs: tape.inputs(),
            nodes: folding.nodes,
            sigs: folding.sigs,
            outputs,
            last_uses,
        })
    }

    /// The number of inputs. It takes no memory.
    pub fn inputs(&self) -> u32
        ensures inputs { result ≡ self.now.inputs }
        ensures graph { IsGraph self.now }
    {
        let _ = &self.nodes;
        self.inputs
    }

    /// What a bit of the tape is. It takes no memory.
    pub fn sig(&self, made: Ref) -> Sig
        requires { IsKnown self.now.inputs (length self.now.sigs) made }
        ensures { result ≡ sig_of self.now.sigs made }
    {
        sig_of(&self.sigs, made)
    }

    /// The number of nodes. It takes no memory.
    pub fn nodes(&self) -> u32
        ensures nodes { result ≡ length self.now.nodes }
        ensures graph { IsGraph self.now }
    {
        self.nodes.len() as u32
    }

    /// The node at place `n`, counted from 0. It takes no memory.
    pub fn node(&self, n: u32) -> Node
        requires { n < length self.now.nodes }
        ensures { slice_get self.now.nodes n ≡ Some result }
    {
        self.nodes[n as usize]
    }

    /// What each output is, in their order. It takes no memory.
    pub fn outputs(&self) -> &[Sig]
        ensures outputs { result.now ≡ self.now.outputs }
        ensures graph { IsGraph self.now }
    {
        &self.outputs
    }

    /// The last use of the node at place `n`: the greatest node that has it as an operand, the
    /// number of nodes where it is an output, itself where neither. It takes no memory.
    pub fn last_use(&self, n: u32) -> u32
        requires { n < length self.now.nodes }
        ensures { result ≡ last_use_in self.now n }
    {
        self.last_uses[n as usize]
    }
}
