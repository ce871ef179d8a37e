// The fold of the writes of a tape, each by its own operands alone.
ghost use Rattle.std.specs.Prelude.{◌≡◌, ◌<◌, length, map, IfOk, OnOk, OnErr};
ghost use Rattle.revs_tape.specs.declared.limits.TheConstants.{MOST_WRITES};
ghost use Rattle.dependency_graph.specs.Graphs.{sig_of};
ghost use Rattle.dependency_graph.specs.Folds.{and_constant, and_of, folded, folded_by, FoldView};
ghost use Rattle.dependency_graph.specs.Folds.{nothing_folded, with_write, xor_constant, xor_of};

use crate::{Base, Node, Sig};
use revc_base::Memory;
use revs_tape::{Entry, Ref, Tape};
use std::alloc::{AllocError, Global};
use std::marker::Model;

// What a write is folded to: a constant or a base that is there already, or a new node.
#[derive(Clone, Copy)]
pub enum Reduct {
    Known(Sig),
    New(Node),
}

fn xor_constant(bit: bool, base: Base) -> Reduct
    ensures { result ≡ xor_constant bit base }
{
    if bit {
        Reduct::New(Node::Not(base))
    } else {
        Reduct::Known(Sig::Is(base))
    }
}

fn xor(a: Sig, b: Sig) -> Reduct
    ensures { result ≡ xor_of a b }
{
    match (a, b) {
        (Sig::Const(a), Sig::Const(b)) => Reduct::Known(Sig::Const(a ^ b)),
        (Sig::Const(bit), Sig::Is(base)) => xor_constant(bit, base),
        (Sig::Is(base), Sig::Const(bit)) => xor_constant(bit, base),
        (Sig::Is(a), Sig::Is(b)) => {
            if a == b {
                Reduct::Known(Sig::Const(false))
            } else {
                Reduct::New(Node::Xor(a, b))
            }
        }
    }
}

fn and_constant(bit: bool, base: Base) -> Reduct
    ensures { result ≡ and_constant bit base }
{
    if bit {
        Reduct::Known(Sig::Is(base))
    } else {
        Reduct::Known(Sig::Const(false))
    }
}

fn and(a: Sig, b: Sig) -> Reduct
    ensures { result ≡ and_of a b }
{
    match (a, b) {
        (Sig::Const(a), Sig::Const(b)) => Reduct::Known(Sig::Const(a && b)),
        (Sig::Const(bit), Sig::Is(base)) => and_constant(bit, base),
        (Sig::Is(base), Sig::Const(bit)) => and_constant(bit, base),
        (Sig::Is(a), Sig::Is(b)) => {
            if a == b {
                Reduct::Known(Sig::Is(a))
            } else {
                Reduct::New(Node::And(a, b))
            }
        }
    }
}

// What a bit of the tape is, with what the writes became.
pub fn sig_of(sigs: &[Sig], made: Ref) -> Sig
    ensures { result ≡ sig_of sigs.now made }
{
    match made {
        Ref::Input(i) => Sig::Is(Base::Input(i)),
        Ref::Write(j) => sigs.get(j as usize).copied().unwrap_or(Sig::Const(false)),
    }
}

// What these bits of the tape are.
pub fn sigs_of(alloc: Global, sigs: &[Sig], made: &[Ref]) -> Result<Vec<Sig>, AllocError>
    ensures { IfOk result (λ found. found.items ≡ map (sig_of sigs.now) made.now) }
{
    made.iter().map(|made| sig_of(sigs, *made)).collect(alloc)
}

fn folded(sigs: &[Sig], entry: Entry) -> Reduct
    ensures { result ≡ folded sigs.now entry }
{
    match entry {
        Entry::Const(bit) => Reduct::Known(Sig::Const(bit)),
        Entry::Xor(a, b) => xor(sig_of(sigs, a), sig_of(sigs, b)),
        Entry::And(a, b) => and(sig_of(sigs, a), sig_of(sigs, b)),
    }
}

// The nodes so far, and what each write so far became.
#[derive(Drop)]
pub struct Folding {
    pub nodes: Vec<Node>,
    pub sigs: Vec<Sig>,
}

impl Model for Folding {
    ghost Value = { FoldView };

    ghost view = { λ f. record { nodes = f.nodes.items; sigs = f.sigs.items } };
}

impl Folding {
    fn new(alloc: Global) -> Folding
        ensures { result ≡ nothing_folded }
    {
        Folding {
            nodes: Vec::new(alloc),
            sigs: Vec::new(alloc),
        }
    }

    // Takes one more write.
    fn add(&mut self, entry: Entry) -> Result<(), Memory>
        requires { length self.old.nodes < MOST_WRITES }
        ensures { OnOk result (self.new ≡ with_write self.old entry) }
    {
        let sig = match folded(&self.sigs, entry) {
            Reduct::Known(sig) => sig,
            Reduct::New(node) => {
                let place = self.nodes.len() as u32;
                self.nodes.push(node)?;
                Sig::Is(Base::Node(place))
            }
        };
        self.sigs.push(sig)?;
        Ok(())
    }
}

// The fold of all writes.
#[tactic(auto, using(crate::proofs::FoldLemmas::nodes_grow))]
pub fn fold(tape: &Tape) -> Result<Folding, Memory>
    ensures { IfOk result (λ f. f ≡ folded_by nothing_folded tape.now.entries) }
{
    let mut folding = Folding::new(*tape.allocator());
    for entry in tape.entries() {
        folding.add(*entry)?;
    }
    Ok(folding)
}
