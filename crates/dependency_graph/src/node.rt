// Bases, nodes, and what a write becomes.
ghost use Rattle.std.specs.Prelude.{◌≡◌, ◌↔◌, IsTrue};

/// What a node is made of: an input of the program or a node of the graph. Both are counted from 0.
#[derive(Clone, Copy, PartialEq, Eq, PartialOrd, Ord, Hash)]
pub enum Base {
    Input(u32),
    Node(u32),
}

/// A node: the negation of a base, or the XOR or the AND of two different bases.
#[derive(Clone, Copy, PartialEq, Eq)]
pub enum Node {
    Not(Base),
    Xor(Base, Base),
    And(Base, Base),
}

/// What a bit of a tape is in the graph: a constant, or a base.
#[derive(Clone, Copy, PartialEq, Eq)]
pub enum Sig {
    Const(bool),
    Is(Base),
}
