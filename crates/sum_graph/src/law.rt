ghost use Rattle.sum_graph.specs.Plain.{PlainGraphsAreAlike};

/// The law of plain graphs: each has the values of the settled graph that it is made of, and its
/// steps. The function does nothing: its contract is the law.
pub fn plain_graphs_are_alike()
    ensures { PlainGraphsAreAlike }
{}
