// Which plans are tried.

/// Which plans are tried, in which order.
#[derive(Clone, Copy, PartialEq, Eq)]
pub enum Plan {
    /// The eager plan, and then pebbling.
    Auto,
    /// Over the lean graph, as `Lean`, with more planners: its output lines have to start at 0.
    Compact,
    /// The eager plan alone.
    Eager,
    /// Over the lean graph, the best of the plan of its row, which has a line for each node, and of
    /// those that planners find: the one of the least `Size`.
    Lean,
    /// Pebbling, with blocks from the least power of two that has all nodes down by halves to 1.
    Pebble,
    /// The plan of `Lean`, or one of small Toffoli depth that a planner finds, over a graph whose
    /// nodes have one product at most: the one of the least Toffoli depth.
    Shallow,
}
