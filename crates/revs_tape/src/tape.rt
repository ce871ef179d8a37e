// The writes of a program's run, with its claims and its outputs.
ghost use Rattle.std.specs.Prelude.{◌≡◌, ◌+◌, ◌<◌, ◌≤◌, ◌∷◌, [], ◌++◌, length, sum, slice_get};
ghost use Rattle.std.specs.Prelude.{Some, IfOk, OnOk, OnErr};
ghost use Rattle.std.specs.List.{AllByRecursion};
ghost use Rattle.revs_tape.specs.Tapes.{AreWidths, IsKnown, IsKnownEntry, IsTape, TapeView};
ghost use Rattle.revs_tape.specs.declared.limits.TheConstants.{MOST_CLAIMS, MOST_OUTPUTS};
ghost use Rattle.revs_tape.specs.declared.limits.TheConstants.{MOST_WRITES};

use revc_base::{Memory, Place};
use std::alloc::Global;
use std::marker::Model;

/// What made a bit: an input of the program, or a write of its run. Both are counted from 0.
#[derive(Clone, Copy, Debug, PartialEq, Eq)]
pub enum Ref {
    Input(u32),
    Write(u32),
}

/// A write: a constant, or the XOR or the AND of two earlier bits.
#[derive(Clone, Copy, Debug)]
pub enum Entry {
    Const(bool),
    Xor(Ref, Ref),
    And(Ref, Ref),
}

/// What a claim says of a bit: `Clean` that it is false, `Assert` that it is true.
#[derive(Clone, Copy, Debug, PartialEq, Eq)]
pub enum Kind {
    Clean,
    Assert,
}

/// A claim of a program on a bit, and the place of its term.
#[derive(Clone, Copy)]
pub struct Claim {
    pub kind: Kind,
    pub of: Ref,
    pub at: Place,
}

/// The writes of a run, each made of inputs and of earlier writes, with the claims and the outputs
/// of the program. Contracts see it as the widths of the parameters and the lists of writes, claims
/// and outputs.
///
/// It keeps at most 1,024 inputs, 262,144 writes, 4,096 claims and 1,024 outputs.
#[derive(Drop)]
pub struct Tape {
    params: Vec<u32>,
    inputs: u32,
    entries: Vec<Entry>,
    claims: Vec<Claim>,
    outputs: Vec<Ref>,
}

impl Model for Tape {
    ghost Value = { TapeView };

    ghost view = { λ t. record {
      params = t.params.items;
      entries = t.entries.items;
      claims = t.claims.items;
      outputs = t.outputs.items;
    } };

    ghost invariant = { λ t. IsTape (record {
      params = t.params.items;
      entries = t.entries.items;
      claims = t.claims.items;
      outputs = t.outputs.items;
    }) × (t.inputs ≡ sum t.params.items) };
}

impl Tape {
    /// The tape of a program with parameters of these widths, without writes, claims and outputs.
    /// It takes no memory.
    pub fn new(alloc: Global, params: Vec<u32>) -> Tape
        requires { AreWidths params.items }
        ensures { result ≡ record {
          params = params.items;
          entries = [];
          claims = [];
          outputs = [];
        } }
    {
        let inputs = params.iter().sum();
        Tape {
            params,
            inputs,
            entries: Vec::new(alloc),
            claims: Vec::new(alloc),
            outputs: Vec::new(alloc),
        }
    }

    /// Appends a write, and answers it.
    pub fn push(&mut self, entry: Entry) -> Result<Ref, Memory>
        requires known { IsKnownEntry (sum self.old.params) (length self.old.entries) entry }
        requires room { length self.old.entries < MOST_WRITES }
        ensures ok { IfOk result (λ made. made ≡ Ref.Write (length self.old.entries)) }
        ensures pushed { OnOk result
            (self.new ≡ record self.old { entries = self.old.entries ++ entry ∷ [] }) }
        ensures err { OnErr result (self.new ≡ self.old) }
    {
        let made = Ref::Write(self.entries.len() as u32);
        self.entries.push(entry)?;
        Ok(made)
    }

    /// Appends a claim.
    pub fn claim(&mut self, claim: Claim) -> Result<(), Memory>
        requires known { IsKnown (sum self.old.params) (length self.old.entries) claim.of }
        requires room { length self.old.claims < MOST_CLAIMS }
        ensures ok { OnOk result
            (self.new ≡ record self.old { claims = self.old.claims ++ claim ∷ [] }) }
        ensures err { OnErr result (self.new ≡ self.old) }
    {
        self.claims.push(claim)?;
        Ok(())
    }

    /// Sets the outputs, which are 1 to 1,024. It takes no memory.
    pub fn set_outputs(&mut self, outputs: Vec<Ref>)
        requires known { AllByRecursion
            (IsKnown (sum self.old.params) (length self.old.entries)) outputs.items }
        requires some { 1 ≤ length outputs.items }
        requires few { length outputs.items ≤ MOST_OUTPUTS }
        ensures { self.new ≡ record self.old { outputs = outputs.items } }
    {
        self.outputs = outputs;
    }

    /// The width of each parameter. It takes no memory.
    pub fn params(&self) -> &[u32]
        ensures params { result.now ≡ self.now.params }
        ensures tape { IsTape self.now }
    {
        &self.params
    }

    /// The number of inputs, which is the sum of the widths. It takes no memory.
    pub fn inputs(&self) -> u32
        ensures inputs { result ≡ sum self.now.params }
        ensures tape { IsTape self.now }
    {
        self.inputs
    }

    /// The number of writes. It takes no memory.
    pub fn len(&self) -> u32
        ensures len { result ≡ length self.now.entries }
        ensures tape { IsTape self.now }
    {
        self.entries.len() as u32
    }

    /// The write at place `i`, counted from 0. It takes no memory.
    pub fn entry(&self, i: u32) -> Entry
        requires { i < length self.now.entries }
        ensures { slice_get self.now.entries i ≡ Some result }
    {
        self.entries[i as usize]
    }

    /// The writes, in their order. It takes no memory.
    pub fn entries(&self) -> &[Entry]
        ensures entries { result.now ≡ self.now.entries }
        ensures tape { IsTape self.now }
    {
        &self.entries
    }

    /// The claims, in their order. It takes no memory.
    pub fn claims(&self) -> &[Claim]
        ensures claims { result.now ≡ self.now.claims }
        ensures tape { IsTape self.now }
    {
        &self.claims
    }

    /// The outputs, in their order. It takes no memory.
    pub fn outputs(&self) -> &[Ref]
        ensures outputs { result.now ≡ self.now.outputs }
        ensures tape { IsTape self.now }
    {
        &self.outputs
    }

    /// Where the tape takes its memory from.
    pub fn allocator(&self) -> &Global {
        self.entries.allocator()
    }
}
