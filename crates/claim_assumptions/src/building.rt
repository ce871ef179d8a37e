// The tapes that say on which inputs claims hold.
ghost use Rattle.std.specs.Prelude.{◌≡◌, ◌+◌, ◌*◌, ◌<◌, ◌≤◌, ◌++◌, [], length, sum, not};
ghost use Rattle.std.specs.Prelude.{IfOk, OnOk};
ghost use Rattle.revs_tape.specs.Tapes.{IsKnown, claimed};
ghost use Rattle.revs_tape.specs.declared.limits.TheConstants.{MOST_CLAIMS, MOST_WRITES};
ghost use Rattle.claim_assumptions.specs.Assumptions.{assuming, bare, constant_at, constants};
ghost use Rattle.claim_assumptions.specs.Assumptions.{failing_links, granted, met_links, premise};
ghost use Rattle.claim_assumptions.specs.Assumptions.{assumed_of, restricted};
ghost use Rattle.claim_assumptions.specs.Settling.{AssumesSome, HasRoom};
ghost use Rattle.claim_assumptions.specs.inside.Links.{AreClaimsOn, linked, with_links};

use revc_base::{Memory, Place};
use revs_tape::{Claim, Entry, Kind, Ref, Tape};

/// A tape with the writes of this one, and without its claims and outputs.
pub fn bare(tape: &Tape) -> Result<Tape, Memory>
    ensures { IfOk result (λ made. made ≡ bare tape.now) }
{
    let alloc = *tape.allocator();
    let mut made = Tape::new(alloc, tape.params().to_vec(alloc)?);
    for entry in tape.entries() {
        made.push(*entry)?;
    }
    Ok(made)
}

// The constants that a claim's bit is compared with stand behind so many writes.
fn push_constants(made: &mut Tape) -> Result<(), Memory>
    requires { length made.old.entries + 2 ≤ MOST_WRITES }
    ensures { OnOk result
        (made.new ≡ record made.old { entries = made.old.entries ++ constants }) }
{
    made.push(Entry::Const(false))?;
    made.push(Entry::Const(true))?;
    Ok(())
}

// The constant that a claim claims.
fn claimed_constant(writes: u32, kind: Kind) -> Ref
    requires { writes < MOST_WRITES }
    ensures { result ≡ constant_at writes (claimed kind) }
{
    match kind {
        Kind::Clean => Ref::Write(writes),
        Kind::Assert => Ref::Write(writes + 1),
    }
}

// The constant that it does not claim.
fn other_constant(writes: u32, kind: Kind) -> Ref
    requires { writes < MOST_WRITES }
    ensures { result ≡ constant_at writes (not (claimed kind)) }
{
    match kind {
        Kind::Clean => Ref::Write(writes + 1),
        Kind::Assert => Ref::Write(writes),
    }
}

// The two writes of a claim: whether its bit differs from a constant, and whether so where the
// claims through another are met.
fn push_link(made: &mut Tape, of: Ref, constant: Ref, met: Ref) -> Result<Ref, Memory>
    requires claim { IsKnown (sum made.old.params) (length made.old.entries) of }
    requires constant { IsKnown (sum made.old.params) (length made.old.entries) constant }
    requires met { IsKnown (sum made.old.params) (length made.old.entries) met }
    requires room { length made.old.entries + 2 ≤ MOST_WRITES }
    ensures ok { IfOk result (λ bit. bit ≡ Ref.Write (length made.old.entries + 1)) }
    ensures pushed { OnOk result (made.new ≡ record made.old {
      entries = made.old.entries ++ linked (length made.old.entries) of constant met;
    }) }
{
    let bit = made.push(Entry::Xor(of, constant))?;
    made.push(Entry::And(met, bit))
}

// The links of these claims behind the constants, each met where its bit is the claimed one.
fn push_met(made: &mut Tape, writes: u32, claims: &[Claim]) -> Result<(), Memory>
    requires start { length made.old.entries ≡ writes + 2 }
    requires known { AreClaimsOn made.old.params writes claims.now }
    requires room { writes + 2 + 2 * length claims.now ≤ MOST_WRITES }
    ensures { OnOk result (made.new ≡ record made.old {
      entries = made.old.entries ++ met_links writes 0 claims.now;
    }) }
{
    for claim in claims {
        let met = Ref::Write(made.len() - 1);
        push_link(made, claim.of, other_constant(writes, claim.kind), met)?;
    }
    Ok(())
}

// These claims, as claims that hold.
fn grant(made: &mut Tape, writes: u32, claims: &[Claim]) -> Result<(), Memory>
    requires known { writes < length made.old.entries }
    requires few { length made.old.claims + length claims.now ≤ MOST_CLAIMS }
    ensures { OnOk result (made.new ≡ record made.old {
      claims = made.old.claims ++ granted writes claims.now;
    }) }
{
    for claim in claims {
        made.claim(Claim {
            kind: Kind::Clean,
            of: Ref::Write(writes),
            at: claim.at,
        })?;
    }
    Ok(())
}

// The links of these claims behind those of so many others, and for each the claim that it does not
// fail where the others are met.
fn push_failing(made: &mut Tape, writes: u32, met: u32, claims: &[Claim]) -> Result<(), Memory>
    requires start { length made.old.entries ≡ writes + 2 + 2 * met }
    requires known { AreClaimsOn made.old.params writes claims.now }
    requires room { writes + 2 + 2 * met + 2 * length claims.now ≤ MOST_WRITES }
    requires few { length made.old.claims + length claims.now ≤ MOST_CLAIMS }
    ensures { OnOk result (made.new ≡ record made.old {
      entries = made.old.entries ++ failing_links writes met met claims.now;
      claims = made.old.claims ++ restricted writes met claims.now;
    }) }
{
    let all = Ref::Write(writes + 1 + 2 * met);
    for claim in claims {
        let of = push_link(made, claim.of, claimed_constant(writes, claim.kind), all)?;
        made.claim(Claim {
            kind: Kind::Clean,
            of,
            at: claim.at,
        })?;
    }
    Ok(())
}

// A tape with the constants and the links of these claims behind its writes.
fn with_links(tape: &Tape, claims: &[Claim]) -> Result<Tape, Memory>
    requires room { HasRoom tape.now }
    requires known { AreClaimsOn tape.now.params (length tape.now.entries) claims.now }
    requires few { length claims.now ≤ MOST_CLAIMS }
    ensures { IfOk result (λ made. made ≡ with_links tape.now claims.now) }
{
    let mut made = bare(tape)?;
    push_constants(&mut made)?;
    push_met(&mut made, tape.len(), claims)?;
    Ok(made)
}

// So many of the first claims, or all.
pub fn assumed_claims(tape: &Tape, assumed: u32) -> usize
    ensures { result ≡ length (assumed_of tape.now assumed) }
{
    tape.claims().len().min(assumed as usize)
}

// The tape whose one output is the bit that the assumed claims are met.
pub fn premise_tape(tape: &Tape, assumed: u32) -> Result<Tape, Memory>
    requires { HasRoom tape.now }
    ensures { IfOk result (λ made. made ≡ premise assumed tape.now) }
{
    let (first, _) = tape.claims().split_at(assumed_claims(tape, assumed));
    let mut made = with_links(tape, first)?;
    let met = Ref::Write(made.len() - 1);
    made.claim(Claim {
        kind: Kind::Clean,
        of: met,
        at: Place { line: 1, column: 1 },
    })?;
    made.set_outputs(vec![in *tape.allocator(); met; 1]?);
    Ok(made)
}

// A tape with the outputs of another.
fn with_outputs(mut made: Tape, tape: &Tape) -> Result<Tape, Memory>
    requires params { made.params ≡ tape.now.params }
    requires writes { length tape.now.entries ≤ length made.entries }
    requires none { made.outputs ≡ [] }
    ensures { IfOk result (λ all. all ≡ record made { outputs = tape.now.outputs }) }
{
    if !tape.outputs().is_empty() {
        made.set_outputs(tape.outputs().to_vec(*tape.allocator())?);
    }
    Ok(made)
}

// The tape whose claims say what those of this one say where the assumed ones are met.
pub fn assuming_tape(tape: &Tape, assumed: u32) -> Result<Tape, Memory>
    requires room { HasRoom tape.now }
    requires some { AssumesSome tape.now assumed }
    ensures { IfOk result (λ made. made ≡ assuming assumed tape.now) }
{
    let count = assumed_claims(tape, assumed);
    let (first, others) = tape.claims().split_at(count);
    let mut made = with_links(tape, first)?;
    grant(&mut made, tape.len(), first)?;
    push_failing(&mut made, tape.len(), count as u32, others)?;
    with_outputs(made, tape)
}
