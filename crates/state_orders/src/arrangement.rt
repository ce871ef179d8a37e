// In which order nodes stand, and which sums have symbols.

/// How the graph that is swept is made of a graph of sums.
#[derive(Clone, Copy, PartialEq, Eq)]
pub enum Arrangement {
    /// Nodes stand as they are read, and have symbols alone.
    Read,
    /// Each segment stands right before its first reader, and long sums have symbols.
    Late,
    /// The same, but sums of more than three inputs have symbols too, as the words of a linear
    /// message schedule; and a sum with a symbol stands right before its first reader where that is
    /// far behind.
    Words,
    /// Nodes stand by ranks, each as early as it can, as where rounds change one half of a state
    /// under the other; words have symbols.
    FirstRanks,
    /// The same, but each node as late as it can.
    LastRanks,
}
