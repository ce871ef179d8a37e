// The table of inner nodes, and the functions that it makes.
ghost use Rattle.std.specs.Prelude.{◌≡◌, ◌≤◌, ◌<◌, ◌+◌, ◌⊎◌, ℕ, [], true, false, not, length};
ghost use Rattle.std.specs.Prelude.{IsTrue, IsFalse, IfOk, IfErr, OnOk, IfSome, IfNone};
ghost use Rattle.std.specs.Prelude.{MatchOption, Contains, slice_get, Some, if◌then◌else◌, reverse};
ghost use Rattle.decision_diagram.specs.Functions.{variable_at, exclusive_or, conjunction};
ghost use Rattle.decision_diagram.specs.Functions.{flipped, AreSame, GivesOnly, Varies, IsLeast};
ghost use Rattle.decision_diagram.specs.Functions.{assignment_of};
ghost use Rattle.decision_diagram.specs.Diagrams.{IsNumber, function_of, first_variable, IsBehind};
ghost use Rattle.decision_diagram.specs.Diagrams.{MayFollow, IsCanonical, DiagramView};
ghost use Rattle.decision_diagram.specs.Growth.{Computes, StandsFor, MayRefuse};
ghost use Rattle.decision_diagram.specs.Growth.{EqualFunctionsHaveOneNumber, InnerNodesVary};
ghost use Rattle.decision_diagram.specs.Growth.{FunctionsAskTheVariables, DiagramsHoldWhatComes};
ghost use Rattle.decision_diagram.specs.Growth.{NodesGoOn};
ghost use Rattle.decision_diagram.specs.Limits.{LimitsAre};
ghost use Rattle.decision_diagram.specs.inside.Flipping.{Grows, IsInner, Splits, node_function};
ghost use Rattle.decision_diagram.specs.inside.Flipping.{AreNumbers, AreBehind, SplitAll};
ghost use Rattle.decision_diagram.specs.inside.Flipping.{flipped_at, first_asked, total, IsOneOf};
ghost use Rattle.decision_diagram.specs.inside.Flipping.{IsProduct, AreUnlike};
ghost use Rattle.decision_diagram.specs.inside.Memos.{HoldsFlips};

use crate::memo::{Operands, note, recalled};
use crate::node::{Dd, DdFault, Node};
use indexmap::{IndexMap, IndexSet};
use revc_base::Memory;
use std::alloc::Global;
use std::marker::Model;

/// Functions of `vars` Boolean variables in one order, with at most `limit` inner nodes. Contracts
/// see the two numbers and the list of the inner nodes, newest first.
///
/// A call that makes a number refuses with `DdFault::Full` only where it needs one more function
/// than the limit allows, and with `DdFault::Memory` only where there is room for one more. Inner
/// nodes that it made on the way may stay then; every earlier number keeps its function. A number
/// that is passed to a call must be one that this diagram gave.
#[derive(Drop)]
pub struct Diagram {
    vars: u32,
    limit: u32,
    nodes: IndexSet<Node>,
}

impl Model for Diagram {
    ghost Value = { DiagramView };

    ghost view = { λ d. record { vars = d.vars; limit = d.limit; nodes = reverse d.nodes.keys } };

    ghost invariant = { λ d. IsCanonical
        (record { vars = d.vars; limit = d.limit; nodes = reverse d.nodes.keys }) };
}

impl Diagram {
    /// A diagram of `vars` variables with no inner node, which may come to have `limit` of them.
    /// Memory for them is taken as they are made.
    pub fn new(alloc: Global, vars: u32, limit: u32) -> Result<Diagram, Memory>
        requires { 1 ≤ limit }
        ensures canonical { IfOk result IsCanonical }
        ensures empty { IfOk result (λ d. d ≡ record { vars = vars; limit = limit; nodes = [] }) }
    {
        Ok(Diagram {
            vars,
            limit,
            nodes: IndexSet::new(alloc),
        })
    }

    /// The number of a constant. It takes no memory.
    pub fn truth(&self, b: bool) -> Dd
        ensures canonical { IsCanonical self.now }
        ensures number { result ≡ (if b then 1 else 0) }
        ensures stands { StandsFor self.now.nodes result (λ _. b) }
    {
        let _ = &self.nodes; // shows what every diagram keeps
        Dd {
            number: usize::from(b),
        }
    }

    /// The function of one variable, by its place in the order, which counts from 0.
    pub fn input(&mut self, var: u32) -> Result<Dd, DdFault>
        requires { var < self.old.vars }
        ensures { Computes (variable_at var) self.old self.new result }
    {
        let (low, high) = (self.truth(false), self.truth(true));
        self.node(var, low, high)
    }

    /// The exclusive or of two functions.
    pub fn xor(&mut self, f: Dd, g: Dd) -> Result<Dd, DdFault>
        requires left { IsNumber self.old.nodes f }
        requires right { IsNumber self.old.nodes g }
        ensures { Computes
            (exclusive_or (function_of self.old.nodes f) (function_of self.old.nodes g))
            self.old self.new result }
    {
        let always = self.truth(true);
        self.flip(f, g, always)
    }

    /// The conjunction of two functions.
    pub fn and(&mut self, f: Dd, g: Dd) -> Result<Dd, DdFault>
        requires left { IsNumber self.old.nodes f }
        requires right { IsNumber self.old.nodes g }
        ensures { Computes
            (conjunction (function_of self.old.nodes f) (function_of self.old.nodes g))
            self.old self.new result }
    {
        let never = self.truth(false);
        self.flip(never, f, g)
    }

    /// The target flipped where both controls hold, which is the exclusive or of `target` and of
    /// the conjunction of `left` and `right`. The conjunction gets no number of its own.
    pub fn flip(&mut self, target: Dd, left: Dd, right: Dd) -> Result<Dd, DdFault>
        requires target { IsNumber self.old.nodes target }
        requires left { IsNumber self.old.nodes left }
        requires right { IsNumber self.old.nodes right }
        ensures { Computes
            (flipped (function_of self.old.nodes target) (function_of self.old.nodes left)
            (function_of self.old.nodes right))
            self.old self.new result }
    {
        let mut memo = IndexMap::new(*self.nodes.allocator());
        let operands = Operands {
            target,
            left,
            right,
        };
        self.flip_by(&mut memo, &operands)
    }

    /// The bit that the function always has, if it is constant. It takes no memory.
    pub fn constant(&self, f: Dd) -> Option<bool>
        requires { IsNumber self.now.nodes f }
        ensures canonical { IsCanonical self.now }
        ensures some { IfSome result (GivesOnly (function_of self.now.nodes f)) }
        ensures none { IfNone result (Varies (function_of self.now.nodes f)) }
    {
        let _ = &self.nodes; // shows what every diagram keeps
        if f.is_inner() {
            None
        } else {
            Some(f == self.truth(true))
        }
    }

    /// The least assignment with the wanted bit, in the order of the variables and false before
    /// true; variables that the function does not ask are false in it. Where no assignment gives
    /// that bit it answers false and leaves `into`, which has a place for each variable. It takes
    /// no memory.
    pub fn least(&self, f: Dd, want: bool, into: &mut [bool]) -> bool
        requires number { IsNumber self.now.nodes f }
        requires places { length into.old ≡ self.now.vars }
        ensures canonical { IsCanonical self.now }
        ensures found { IsTrue result
            → IsLeast (function_of self.now.nodes f) want (assignment_of into.new) }
        ensures none { IsFalse result → GivesOnly (function_of self.now.nodes f) (not want) }
        ensures unchanged { IsFalse result → into.new ≡ into.old }
    {
        let _ = &self.nodes; // shows what every diagram keeps
        let never = self.truth(!want);
        if f == never {
            return false;
        }
        into.fill(false);
        let mut at = f;
        'walk: while at.is_inner() {
            let node = self.inner(at);
            let bit = node.low == never;
            into[node.variable as usize] = bit;
            at = node.side(bit);
        }
        true
    }

    /// Whether two functions differ. Where they do, `into`, which has a place for each variable,
    /// holds the least assignment on which they do, in the order of the variables and false before
    /// true; variables that neither asks are false in it. Where they do not, `into` is left. It
    /// takes no memory.
    pub fn differ(&self, f: Dd, g: Dd, into: &mut [bool]) -> bool
        requires left { IsNumber self.now.nodes f }
        requires right { IsNumber self.now.nodes g }
        requires places { length into.old ≡ self.now.vars }
        ensures canonical { IsCanonical self.now }
        ensures found { IsTrue result
            → IsLeast (exclusive_or (function_of self.now.nodes f) (function_of self.now.nodes g))
            true (assignment_of into.new) }
        ensures none { IsFalse result
            → AreSame (function_of self.now.nodes f) (function_of self.now.nodes g) }
        ensures unchanged { IsFalse result → into.new ≡ into.old }
    {
        let _ = &self.nodes; // shows what every diagram keeps
        if f == g {
            return false;
        }
        into.fill(false);
        let (mut left, mut right) = (f, g);
        let mut variable = self.first(left).min(self.first(right));
        'walk: while variable < self.vars {
            let (left_low, left_high) = self.branches(left, variable);
            let (right_low, right_high) = self.branches(right, variable);
            let bit = left_low == right_low;
            into[variable as usize] = bit;
            left = chosen(bit, left_low, left_high);
            right = chosen(bit, right_low, right_high);
            variable = self.first(left).min(self.first(right));
        }
        true
    }

    // The node of a number that is no constant.
    fn inner(&self, f: Dd) -> Node
        requires number { IsNumber self.now.nodes f }
        requires inner { 2 ≤ f }
        ensures { IsInner self.now.vars self.now.nodes f result }
    {
        self.nodes.as_slice()[f.number - 2]
    }

    // The variable that a number asks first, or the number of variables for a constant.
    fn first(&self, f: Dd) -> u32
        requires { IsNumber self.now.nodes f }
        ensures { result ≡ first_variable self.now.vars self.now.nodes f }
    {
        if f.is_inner() {
            self.inner(f).variable
        } else {
            self.vars
        }
    }

    // Where a number goes at false and at true of a variable that is not behind its first one.
    fn branches(&self, f: Dd, variable: u32) -> (Dd, Dd)
        requires number { IsNumber self.now.nodes f }
        requires variable { variable < self.now.vars }
        requires first { variable ≤ first_variable self.now.vars self.now.nodes f }
        ensures { Splits self.now.vars self.now.nodes variable f result.0 result.1 }
    {
        if !f.is_inner() {
            return (f, f);
        }
        let node = self.inner(f);
        if node.variable == variable {
            (node.low, node.high)
        } else {
            (f, f)
        }
    }

    // The first variable that one of the operands asks.
    fn first_of(&self, operands: &Operands) -> u32
        requires { AreNumbers self.now.nodes operands.now }
        ensures { result ≡ first_asked self.now.vars self.now.nodes operands.now }
    {
        let of_target = self.first(operands.target);
        of_target
            .min(self.first(operands.left))
            .min(self.first(operands.right))
    }

    // Where the operands go at false and at true of the first variable that one of them asks.
    fn split(&self, operands: &Operands, variable: u32) -> (Operands, Operands)
        requires numbers { AreNumbers self.now.nodes operands.now }
        requires variable { variable < self.now.vars }
        requires first { variable ≡ first_asked self.now.vars self.now.nodes operands.now }
        ensures { SplitAll self.now.vars self.now.nodes variable operands.now
            result.0 result.1 }
    {
        let (target_low, target_high) = self.branches(operands.target, variable);
        let (left_low, left_high) = self.branches(operands.left, variable);
        let (right_low, right_high) = self.branches(operands.right, variable);
        let low = Operands {
            target: target_low,
            left: left_low,
            right: right_low,
        };
        let high = Operands {
            target: target_high,
            left: left_high,
            right: right_high,
        };
        (low, high)
    }

    // What operands ask for: from their branches at the first variable that one of them asks. It
    // goes no deeper than there are variables, and flips the same operands again only where the
    // memo forgot them.
    fn flip_by(
        &mut self,
        memo: &mut IndexMap<Operands, Dd>,
        operands: &Operands,
    ) -> Result<Dd, DdFault>
        requires memo { HoldsFlips self.old memo.old.entries }
        requires numbers { AreNumbers self.old.nodes operands.now }
        ensures grows { Grows (flipped_at self.old.nodes operands.now) self.old self.new }
        ensures answer { IfOk result (λ h.
            StandsFor self.new.nodes h (flipped_at self.old.nodes operands.now)) }
        ensures refused { IfErr result
            (MayRefuse (flipped_at self.old.nodes operands.now) self.new) }
        ensures behind { (v : ℕ) → AreBehind self.old.vars self.old.nodes v operands.now
            → IfOk result (IsBehind self.new.vars self.new.nodes v) }
        ensures memo { OnOk result (HoldsFlips self.new memo.new.entries) }
    {
        if let Some(settled) = self.settled(operands) {
            return Ok(settled);
        }
        if let Some(known) = recalled(memo, operands) {
            return Ok(known);
        }
        let variable = self.first_of(operands);
        let (at_low, at_high) = self.split(operands, variable);
        let low = self.flip_by(memo, &at_low)?;
        let high = self.flip_by(memo, &at_high)?;
        let flipped = self.node(variable, low, high)?;
        note(memo, operands, flipped);
        Ok(flipped)
    }

    // What operands ask for where no node has to be looked at.
    fn settled(&self, operands: &Operands) -> Option<Dd>
        requires { AreNumbers self.now.nodes operands.now }
        ensures canonical { IsCanonical self.now }
        ensures stands { IfSome result (λ h.
            StandsFor self.now.nodes h (flipped_at self.now.nodes operands.now)) }
        ensures one_of { IfSome result (IsOneOf operands.now) }
        ensures none { IfNone result (3 < total operands.now) }
    {
        let product = self.product(operands.left, operands.right)?;
        self.sum(operands.target, product)
    }

    // The conjunction of two functions where no node has to be looked at.
    fn product(&self, f: Dd, g: Dd) -> Option<Dd>
        requires left { IsNumber self.now.nodes f }
        requires right { IsNumber self.now.nodes g }
        ensures canonical { IsCanonical self.now }
        ensures stands { IfSome result (λ h. StandsFor self.now.nodes h
            (conjunction (function_of self.now.nodes f) (function_of self.now.nodes g))) }
        ensures one_of { IfSome result (IsProduct f g) }
        ensures none { IfNone result (3 < f + g) }
    {
        let _ = &self.nodes; // shows what every diagram keeps
        let (no, yes) = (self.truth(false), self.truth(true));
        if f == no || g == no {
            Some(no)
        } else if f == g || g == yes {
            Some(f)
        } else if f == yes {
            Some(g)
        } else {
            None
        }
    }

    // The exclusive or of two functions where no node has to be looked at.
    fn sum(&self, f: Dd, g: Dd) -> Option<Dd>
        requires left { IsNumber self.now.nodes f }
        requires right { IsNumber self.now.nodes g }
        ensures canonical { IsCanonical self.now }
        ensures stands { IfSome result (λ h. StandsFor self.now.nodes h
            (exclusive_or (function_of self.now.nodes f) (function_of self.now.nodes g))) }
        ensures one_of { IfSome result (λ h. (h ≡ f) ⊎ ((h ≡ g) ⊎ (h ≡ 0))) }
        ensures none { IfNone result (AreUnlike f g) }
    {
        let _ = &self.nodes; // shows what every diagram keeps
        let no = self.truth(false);
        if f == g {
            Some(no)
        } else if f == no {
            Some(g)
        } else if g == no {
            Some(f)
        } else {
            None
        }
    }

    // The function that goes to `low` and to `high` by a variable before those that they ask.
    fn node(&mut self, variable: u32, low: Dd, high: Dd) -> Result<Dd, DdFault>
        requires low { IsBehind self.old.vars self.old.nodes variable low }
        requires high { IsBehind self.old.vars self.old.nodes variable high }
        ensures grows { Grows
            (node_function self.old.nodes (record { variable = variable; low = low; high = high }))
            self.old self.new }
        ensures answer { IfOk result (λ h. StandsFor self.new.nodes h
            (node_function self.old.nodes
            (record { variable = variable; low = low; high = high }))) }
        ensures refused { IfErr result (MayRefuse
            (node_function self.old.nodes (record { variable = variable; low = low; high = high }))
            self.new) }
        ensures first { IfOk result (λ h.
            variable ≤ first_variable self.new.vars self.new.nodes h) }
    {
        let _ = &self.nodes; // shows what every diagram keeps
        if low == high {
            return Ok(low);
        }
        let node = Node {
            variable,
            low,
            high,
        };
        match place_of(&self.nodes, node) {
            Some(place) => Ok(Dd { number: place + 2 }),
            None => self.push(node),
        }
    }

    // Adds a node that is not there.
    fn push(&mut self, node: Node) -> Result<Dd, DdFault>
        requires { MayFollow self.old.vars self.old.nodes node }
        ensures grows { Grows (node_function self.old.nodes node) self.old self.new }
        ensures answer { IfOk result (λ h.
            StandsFor self.new.nodes h (node_function self.old.nodes node)) }
        ensures refused { IfErr result (MayRefuse (node_function self.old.nodes node) self.new) }
        ensures first { IfOk result (λ h.
            first_variable self.new.vars self.new.nodes h ≡ node.variable) }
    {
        let count = self.nodes.len();
        if count == self.limit as usize {
            return Err(DdFault::Full { nodes: self.limit });
        }
        self.nodes.insert(node)?;
        Ok(Dd { number: count + 2 })
    }
}

// The one of two numbers to which a bit goes.
fn chosen(bit: bool, low: Dd, high: Dd) -> Dd
    ensures { result ≡ (if bit then high else low) }
{
    if bit { high } else { low }
}

// Where a node stands among these.
fn place_of(nodes: &IndexSet<Node>, node: Node) -> Option<usize>
    ensures { MatchOption result (Contains nodes.now.keys node → ⊥)
        (λ place. slice_get nodes.now.keys place ≡ Some node) }
{
    nodes.get_index_of(&node)
}

/// What holds of every diagram that a call has left: the function of a node is that of the number
/// to which it goes, equal functions have equal numbers, no inner node stands for a constant, a
/// function asks the diagram's variables alone, and what comes from a function by fixing its first
/// variables is constant or has an inner node.
pub fn canonical()
    ensures nodes { NodesGoOn }
    ensures distinct { EqualFunctionsHaveOneNumber }
    ensures inner { InnerNodesVary }
    ensures asks { FunctionsAskTheVariables }
    ensures held { DiagramsHoldWhatComes }
{}

/// The limits of this crate, as numbers.
pub fn limits_are()
    ensures { LimitsAre }
{}
