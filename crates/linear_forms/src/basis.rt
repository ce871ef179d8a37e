// A basis of forms.
ghost use Rattle.std.specs.Prelude.{◌≡◌, ℕ, ◌≤◌, ◌<◌, Bool, List, length, IfOk, IfSome};
ghost use Rattle.linear_forms.specs.Bases.{IsFactorOf};
ghost use Rattle.linear_forms.specs.Forms.{FormView};
ghost use Rattle.linear_forms.specs.Pairs.{is_in};
ghost use Rattle.linear_forms.specs.inside.Combining.{HasMember, IsCombined};

use crate::{Factor, Fingerprint, Form};
use revc_base::Memory;
use std::alloc::Global;
use std::marker::Model;

/// The most members of a basis.
pub const MOST_MEMBERS: usize = 64;

/// Forms whose fingerprints are independent.
#[derive(Drop)]
pub struct Basis {
    members: Vec<Form>,
    rows: Vec<Row>,
}

// A reduced fingerprint with its lowest bit, and the members of which it is the sum.
#[derive(Clone, Copy)]
struct Row {
    reduced: Fingerprint,
    lead: Fingerprint,
    set: u64,
}

impl Model for Basis {
    ghost Value = { List FormView };

    ghost view = { λ b. b.members.items };

    ghost invariant = { λ b. length b.members.items ≤ 64 };
}

impl Basis {
    /// No form. It takes no memory.
    pub fn new(alloc: Global) -> Basis {
        Basis {
            members: Vec::new(alloc),
            rows: Vec::new(alloc),
        }
    }

    /// How many members there are.
    pub fn len(&self) -> u32
        ensures count { result ≡ length self.now }
        ensures few { result ≤ 64 }
    {
        self.members.len() as u32
    }

    /// Takes the form in where its fingerprint is independent of the members', and there is room.
    pub fn widen(&mut self, form: &Form) -> Result<(), Memory> {
        let (reduced, set) = self.reduce(form.fingerprint());
        if reduced.is_none() || self.members.len() >= MOST_MEMBERS {
            return Ok(());
        }
        let own = 1 << self.members.len();
        let row = Row {
            reduced,
            lead: reduced.lowest(),
            set: set ^ own,
        };
        self.rows.push(row)?;
        self.members.push(form.copy()?)?;
        Ok(())
    }

    // What is left of a fingerprint, and the members that were taken off it.
    fn reduce(&self, fingerprint: Fingerprint) -> (Fingerprint, u64) {
        let mut left = fingerprint;
        let mut set = 0;
        for row in &self.rows {
            if left.meets(row.lead) {
                left = left.plus(row.reduced);
                set ^= row.set;
            }
        }
        (left, set)
    }

    /// The form as a factor over the basis, where it is the sum of the members that its fingerprint
    /// tells.
    pub fn factor(&self, form: &Form) -> Result<Option<Factor>, Memory>
        ensures { IfOk result (λ found. IfSome found (IsFactorOf self.now form.now)) }
    {
        let (_, set) = self.reduce(form.fingerprint());
        let sum = combined(form.allocator(), &self.members, set)?;
        if !sum.is_alike(form) {
            return Ok(None);
        }
        let one = sum.one() != form.one();
        Ok(Some(Factor { set, one }))
    }

    /// The form that a factor stands for.
    pub fn form(&self, factor: Factor) -> Result<Form, Memory>
        ensures { IfOk result (λ form. IsFactorOf self.now form factor) }
    {
        let sum = combined(*self.members.allocator(), &self.members, factor.set)?;
        Ok(sum.with_one(factor.one))
    }
}

// The sum of the members of a set.
fn combined(alloc: Global, members: &[Form], set: u64) -> Result<Form, Memory>
    requires few { length members.now ≤ 64 }
    ensures { IfOk result (IsCombined members.now set (length members.now)) }
{
    let mut sum = Form::constant(alloc, false);
    for place in 0..members.len() {
        sum = with_member(sum, &members[place], set, place)?;
    }
    Ok(sum)
}

// The sum with one more form, where its place is in the set.
fn with_member(sum: Form, member: &Form, set: u64, place: usize) -> Result<Form, Memory>
    requires low { place < 64 }
    ensures { IfOk result (HasMember sum member.now set place) }
{
    if has(set, place) {
        sum.plus(member)
    } else {
        Ok(sum)
    }
}

// Whether a place is in a set.
fn has(set: u64, place: usize) -> bool
    requires low { place < 64 }
    ensures { result ≡ is_in set place }
{
    (set >> place) & 1 == 1
}
