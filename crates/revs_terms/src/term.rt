// Terms, as the grammar gives them.
ghost use Rattle.std.specs.Prelude.{◌≡◌};
ghost use Rattle.revs_terms.specs.Terms.{place_of, unit_place};
ghost use Rattle.revs_terms.specs.Trees.{tree_of};

use revc_base::{Place, Text};
use std::marker::Model;

/// A name in a program. `back` is the number of bindings between a use and its own binding; it is 0
/// where a name is bound, and at a use until the names were bound.
#[derive(Drop)]
pub struct Name {
    pub text: Text,
    pub at: Place,
    pub back: u32,
}

/// A unit of a number: digits with their value, or a name that must be bound to a number.
#[derive(Drop)]
pub enum Unit {
    Digits(u32, Place),
    Name(Name),
}

impl Unit {
    /// The place of the unit, which is one token.
    pub fn place(&self) -> Place
        ensures { result ≡ unit_place self.now }
    {
        match self {
            Unit::Digits(_, at) => *at,
            Unit::Name(name) => name.at,
        }
    }
}

/// A step of a number: a unit that is added, or taken away where it stands behind a `-`.
#[derive(Drop)]
pub struct Step {
    pub minus: bool,
    pub unit: Unit,
}

/// A sum of units: the first, which is added, and the steps behind it.
#[derive(Drop)]
pub struct Sum {
    pub first: Unit,
    pub more: Vec<Step>,
}

/// The steps of a number: digits alone, which take no memory of their own, or a sum.
#[derive(Drop)]
pub enum Steps {
    Digits(u32, Place),
    Sum(Box<Sum>),
}

/// A number. Contracts see it as the list of its steps from left to right: it has one at least, of
/// which the first is added.
#[derive(Drop)]
pub struct Num {
    pub steps: Steps,
}

impl Model for Num {
    ghost use Rattle.std.specs.Prelude.{List};
    ghost use Rattle.revs_terms.specs.declared.term.Step.{Step};

    ghost Value = { List Step };

    ghost use Rattle.revs_terms.specs.Numbers.{steps_of};

    ghost view = { λ n. steps_of n.steps };
}

/// A part of a register: the element in one place, or the elements in the places `i` to `j`. Its
/// place is that of its dot.
#[derive(Drop)]
pub enum Part {
    Index { i: Num, at: Place },
    Slice { i: Num, j: Num, at: Place },
}

/// The first and the last number of a `for`.
#[derive(Drop)]
pub struct Ends {
    pub first: Num,
    pub last: Num,
}

/// An item of a block or of a `for`: a value with a name, a term that is run and whose value is
/// dropped, or a `for`, whose items are run once for each number from the first to the last. The
/// place of a `for` is that of its word.
#[cycle(terms)]
#[derive(Drop)]
pub enum Item {
    Let {
        name: Name,
        value: Term,
    },
    Do(Term),
    For {
        name: Name,
        ends: Box<Ends>,
        items: Vec<Item>,
        at: Place,
    },
}

/// The names and the body of a function.
#[cycle(terms)]
#[derive(Drop)]
pub struct Lambda {
    pub names: Vec<Name>,
    pub body: Term,
}

/// A term. Each place is that of the term's first token.
#[cycle(terms)]
#[derive(Drop)]
pub enum Term {
    Name(Name),
    Bool(bool, Place),
    Reg(Vec<Term>, Place),
    Block(Vec<Item>, Box<Term>, Place),
    Fun(Box<Lambda>, Place),
    At(Box<Term>, Vec<Part>),
    Apply(Box<Term>, Vec<Term>),
    Append(Box<Term>, Box<Term>, Place),
    Rotate(Num, Box<Term>, Place),
    Clean(Box<Term>, Place),
    Assert(Box<Term>, Place),
    And(Vec<Term>),
    Xor(Vec<Term>),
    Assign(Box<Term>, Box<Term>),
}

impl Term {
    /// The place of the term's first token. A bracketed term has the place of the term inside. A
    /// chain without parts has none, and is said to stand at 0.
    pub fn place(&self) -> Place
        ensures { result ≡ place_of (tree_of self.now) }
    {
        match self {
            Term::Name(name) => name.at,
            Term::Bool(_, at) | Term::Reg(_, at) | Term::Block(_, _, at) | Term::Fun(_, at) => *at,
            Term::Append(_, _, at) | Term::Rotate(_, _, at) => *at,
            Term::Clean(_, at) | Term::Assert(_, at) => *at,
            Term::At(first, _) | Term::Apply(first, _) | Term::Assign(first, _) => first.place(),
            Term::And(terms) | Term::Xor(terms) => match terms.first() {
                Some(first) => first.place(),
                None => Place { line: 0, column: 0 },
            },
        }
    }
}
