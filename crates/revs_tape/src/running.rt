// The run of a tape on an input.
ghost use Rattle.std.specs.Prelude.{◌≡◌, ◌↔◌, ◌≤◌, [], length, map, sum, IsTrue, IfOk, IfSome};
ghost use Rattle.std.specs.Prelude.{IfNone, OnOk};
ghost use Rattle.std.specs.List.{AllByRecursion};
ghost use Rattle.revs_tape.specs.declared.limits.TheConstants.{MOST_CLAIMS};
ghost use Rattle.revs_tape.specs.Tapes.{IsEndOf, IsFirstFailing, IsMet, bit_of, bit_at, claimed};
ghost use Rattle.revs_tape.specs.Tapes.{entry_bit, written_by};

use crate::{Claim, Entry, Kind, Ref, Tape};
use revc_base::{Bits, Memory};
use std::alloc::{AllocError, Global};

/// How the run of a tape ends on an input.
#[derive(Drop)]
pub enum TapeEnd {
    /// Every claim holds, and these are the output bits.
    Out(Bits),
    /// The claim with this number, counted from 0, is the first that fails.
    Broken { claim: u32 },
}

// The bit at a place; past the end it is false.
fn bit_of(bits: &[bool], place: u32) -> bool
    ensures { result ≡ bit_of bits.now place }
{
    bits.get(place as usize).copied().unwrap_or(false)
}

fn bit_at(input: &[bool], written: &[bool], made: Ref) -> bool
    ensures { result ≡ bit_at input.now written.now made }
{
    match made {
        Ref::Input(i) => bit_of(input, i),
        Ref::Write(j) => bit_of(written, j),
    }
}

// The bit of a write, where those before it are there.
fn entry_bit(input: &[bool], written: &[bool], entry: Entry) -> bool
    ensures { result ≡ entry_bit input.now written.now entry }
{
    match entry {
        Entry::Const(bit) => bit,
        Entry::Xor(a, b) => bit_at(input, written, a) ^ bit_at(input, written, b),
        Entry::And(a, b) => bit_at(input, written, a) && bit_at(input, written, b),
    }
}

// The bit that a claim claims.
fn claimed(kind: Kind) -> bool
    ensures { result ≡ claimed kind }
{
    match kind {
        Kind::Clean => false,
        Kind::Assert => true,
    }
}

// Whether a claim holds, with the bits of the inputs and of the writes.
fn holds(input: &[bool], written: &[bool], claim: &Claim) -> bool
    ensures { IsTrue result ↔ IsMet input.now written.now claim.now }
{
    bit_at(input, written, claim.of) == claimed(claim.kind)
}

// The number of the first claim that fails.
#[tactic(auto, using(list_facts::proofs::FirstLemmas::first_without))]
fn first_failing(claims: &[Claim], input: &[bool], written: &[bool]) -> Option<u32>
    requires { length claims.now ≤ MOST_CLAIMS }
    ensures found { IfSome result (λ number.
        IsFirstFailing input.now written.now claims.now number) }
    ensures none { IfNone result (AllByRecursion (IsMet input.now written.now) claims.now) }
{
    for (number, claim) in claims.iter().enumerate() {
        if !holds(input, written, claim) {
            return Some(number as u32);
        }
    }
    None
}

// The bits of these, with the bits of the inputs and the writes.
fn bits_of(
    alloc: Global,
    made: &[Ref],
    input: &[bool],
    written: &[bool],
) -> Result<Vec<bool>, AllocError>
    ensures { IfOk result (λ bits. bits.items ≡ map (bit_at input.now written.now) made.now) }
{
    made.iter()
        .map(|made| bit_at(input, written, *made))
        .collect(alloc)
}

// Appends the bits of these writes to the bits of those before them.
fn append_bits(entries: &[Entry], input: &[bool], written: &mut Vec<bool>) -> Result<(), Memory>
    ensures { OnOk result
        (written.new.items ≡ written_by input.now written.old.items entries.now) }
{
    for entry in entries {
        let bit = entry_bit(input, written, *entry);
        written.push(bit)?;
    }
    Ok(())
}

impl Tape {
    // The bits of the writes on an input.
    fn written(&self, input: &[bool]) -> Result<Vec<bool>, Memory>
        ensures { IfOk result (λ written.
            written.items ≡ written_by input.now [] self.now.entries) }
    {
        let mut written = Vec::with_capacity(*self.allocator(), self.entries().len())?;
        append_bits(self.entries(), input, &mut written)?;
        Ok(written)
    }

    // How the run ends with these bits of the writes.
    fn end(&self, input: &[bool], written: &[bool]) -> Result<TapeEnd, Memory>
        requires { written.now ≡ written_by input.now [] self.now.entries }
        ensures { IfOk result (λ end. IsEndOf self.now input.now end) }
    {
        if let Some(claim) = first_failing(self.claims(), input, written) {
            return Ok(TapeEnd::Broken { claim });
        }
        let outputs = bits_of(*self.allocator(), self.outputs(), input, written)?;
        Ok(TapeEnd::Out(Bits::new(outputs)))
    }

    /// How the run of the tape ends on an input: with the output bits where every claim holds, else
    /// at the first claim that fails. The bits of the input are those of the parameters in order,
    /// each from place 0 upwards.
    pub fn run(&self, input: &[bool]) -> Result<TapeEnd, Memory>
        requires { length input.now ≡ sum self.now.params }
        ensures { IfOk result (λ end. IsEndOf self.now input.now end) }
    {
        let written = self.written(input)?;
        self.end(input, &written)
    }
}
