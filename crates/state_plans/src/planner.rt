// The planner: which order of nodes, and how many of them are cleaned.
use crate::lives::Lines;
use crate::replaying::moves_of;
use line_moves::Moves;
use plan_tools::{Limits, Size, Stop, Work, number};
use state_graphs::StateGraph;
use state_lowering::lower;
use state_orders::Arrangement;
use state_sweeps::{Sweep, Trunk, Way, sweep_over};
use std::alloc::Global;
use sum_graph::SumGraph;

/// The most units of work of all sweeps, and of one of them.
const MOST_WORK: u64 = 300_000_000;

const MOST_SWEPT: u64 = 150_000_000;

/// How many of them a sweep may take, and how many more for each node that lies behind.
#[derive(Clone, Copy, PartialEq, Eq)]
enum Effort {
    /// Where nodes stand by ranks.
    Brief,
    Usual,
    /// Where the words of a message schedule have symbols, which makes vectors long.
    Long,
}

impl Effort {
    fn at_first(self) -> u64 {
        match self {
            Effort::Brief => 1_500_000,
            Effort::Usual | Effort::Long => 6_000_000,
        }
    }

    fn per_node(self) -> u64 {
        match self {
            Effort::Brief | Effort::Usual => 6000,
            Effort::Long => 30_000,
        }
    }
}

/// How many numbers of cleaned nodes are tried between none and all, and of how much work.
const TURNS: usize = 6;

const MOST_BETWEEN: u64 = 100_000_000;

/// Numbers between are tried where the lines that are left are more than this part of the Toffoli
/// gates: a line is worth a gate or two.
const PER_LINE: u64 = 512;

/// By more than how many symbols a vector is to be shorter than a row to take its head; and the
/// most work of a sweep that is done once more without such a margin, which mostly gives fewer
/// gates.
const MARGIN: usize = 2;

const MOST_ONCE_MORE: u64 = 10_000_000;

/// Moves for a graph of sums each of whose nodes has at most one product, and whose outputs have
/// none. The output lines begin as 0.
///
/// Of the plans that were found within the lines it is the best by its `Size`. No node is cleaned
/// beneath; if that does not fit, all are; if that does, numbers of cleaned nodes between are
/// tried. That is done for two orders of the nodes; the second one not where the first had no node
/// beneath, or took too much work. Where no plan was found for that, words have symbols in the
/// second one; and where that gives none either, all nodes are made beneath, as outputs want that
/// are narrower than what they are made of.
///
/// # Errors
///
/// `GaveUp` where no plan fits the lines, or the work is spent before one is found; `Memory` where
/// memory is refused. No clause says so.
pub fn plan(alloc: Global, graph: &SumGraph, limits: Limits) -> Result<Moves, Stop> {
    let ports = graph.inputs().saturating_add(number(graph.outputs().len()));
    let Some(room) = limits.work_lines(ports) else {
        return Err(Stop::GaveUp);
    };
    let mut search = Search {
        alloc,
        ports,
        room,
        left: MOST_WORK,
        effort: Effort::Usual,
        is_over: false,
        gave_up: false,
        best: None,
    };
    search.search_ranks(graph)?;
    if !search.is_over {
        search.search(graph, Arrangement::Read)?;
    }
    if !search.gave_up && !search.is_over {
        search.search(graph, Arrangement::Late)?;
    }
    if search.gave_up && search.best.is_none() {
        search.search_words(graph)?;
    }
    if search.best.is_none() {
        search.search_beneath(graph)?;
    }
    match &search.best {
        Some(Candidate { graph, swept }) => moves_of(alloc, graph, &swept.sweep, &swept.lines),
        None => Err(Stop::GaveUp),
    }
}

// A search for a plan.
#[derive(Drop)]
struct Search {
    alloc: Global,
    /// How many lines of inputs and outputs there are.
    ports: u32,
    /// How many work lines there may be.
    room: u32,
    /// The units of work that are left, and how many of them a sweep may take.
    left: u64,
    effort: Effort,
    /// Whether no other order is to be tried.
    is_over: bool,
    /// Whether this order takes too much work.
    gave_up: bool,
    best: Option<Candidate>,
}

// How a graph is swept.
#[derive(Clone, Copy)]
struct Choice {
    cleaned: u32,
    is_beneath: bool,
    margin: usize,
}

impl Choice {
    // No node is cleaned.
    const KEPT: Choice = Choice {
        cleaned: 0,
        is_beneath: false,
        margin: MARGIN,
    };

    // All nodes are made beneath, and cleaned.
    const BENEATH: Choice = Choice {
        cleaned: u32::MAX,
        is_beneath: true,
        margin: MARGIN,
    };

    fn with_cleaned(self, cleaned: u32) -> Choice {
        Choice { cleaned, ..self }
    }
}

// A sweep, the lines of its rows, and how it was found.
#[derive(Drop)]
struct Swept {
    sweep: Sweep,
    lines: Lines,
    choice: Choice,
    work: u64,
}

// A graph, and the best sweep of it.
#[derive(Drop)]
struct Candidate {
    graph: StateGraph,
    swept: Swept,
}

impl Swept {
    fn size(&self, ports: u32) -> Size {
        let lines = ports.saturating_add(self.lines.work);
        Size::new(self.sweep.toffoli, lines, self.sweep.gates)
    }
}

impl Search {
    // Tries an order of the nodes.
    fn search(&mut self, graph: &SumGraph, arrangement: Arrangement) -> Result<(), Stop> {
        match self.lowered(graph, arrangement)? {
            Some(lowered) => self.search_in(lowered),
            None => Ok(()),
        }
    }

    // The graph that is swept; none where that takes too much work.
    fn lowered(
        &self,
        graph: &SumGraph,
        arrangement: Arrangement,
    ) -> Result<Option<StateGraph>, Stop> {
        match lower(self.alloc, graph, arrangement) {
            Ok(lowered) => Ok(Some(lowered)),
            Err(Stop::GaveUp) => Ok(None),
            Err(stop) => Err(stop),
        }
    }

    fn search_in(&mut self, lowered: StateGraph) -> Result<(), Stop> {
        let mut trunk = None;
        if let Some(swept) = self.best_sweep(&lowered, &mut trunk)? {
            let swept = self.once_more(&lowered, swept, &mut trunk)?;
            self.keep(lowered, swept);
        }
        Ok(())
    }

    // Tries the orders by ranks, the second one not where the first took too much work. That does
    // not tell of other orders.
    fn search_ranks(&mut self, graph: &SumGraph) -> Result<(), Stop> {
        self.effort = Effort::Brief;
        self.search(graph, Arrangement::FirstRanks)?;
        if !self.gave_up && !self.is_over {
            self.search(graph, Arrangement::LastRanks)?;
        }
        self.effort = Effort::Usual;
        self.gave_up = false;
        Ok(())
    }

    // Tries the order in which words have symbols, where there are words.
    fn search_words(&mut self, graph: &SumGraph) -> Result<(), Stop> {
        match self.lowered(graph, Arrangement::Words)? {
            Some(lowered) if has_words(&lowered) => {
                self.gave_up = false;
                self.effort = Effort::Long;
                self.search_in(lowered)
            }
            _ => Ok(()),
        }
    }

    // Tries all nodes beneath, in the order in which they are read.
    fn search_beneath(&mut self, graph: &SumGraph) -> Result<(), Stop> {
        let Some(lowered) = self.lowered(graph, Arrangement::Read)? else {
            return Ok(());
        };
        self.effort = Effort::Usual;
        if let Some(swept) = self.swept(&lowered, Choice::BENEATH, &mut None)? {
            self.keep(lowered, swept);
        }
        Ok(())
    }

    fn keep(&mut self, graph: StateGraph, swept: Swept) {
        self.best = Some(Candidate { graph, swept });
    }

    // Whether a sweep is better than the best so far.
    fn is_better(&self, swept: &Swept) -> bool {
        match &self.best {
            Some(best) => swept.size(self.ports) < best.swept.size(self.ports),
            None => true,
        }
    }

    // The best sweep of a graph that fits, if it is better than that of the other one. If that has
    // no node cleaned, none is cleaned here.
    fn best_sweep(
        &mut self,
        graph: &StateGraph,
        trunk: &mut Option<Trunk>,
    ) -> Result<Option<Swept>, Stop> {
        if let Some(kept) = self.swept(graph, Choice::KEPT, trunk)? {
            self.is_over |= !kept.sweep.has_beneath;
            return Ok(if self.is_better(&kept) {
                Some(kept)
            } else {
                None
            });
        }
        if self.gave_up || self.is_kept() || trunk.is_none() {
            return Ok(None);
        }
        match self.swept(graph, Choice::KEPT.with_cleaned(u32::MAX), trunk)? {
            Some(clean) if self.is_better(&clean) => Ok(Some(self.between(graph, clean, trunk)?)),
            _ => Ok(None),
        }
    }

    // Whether the best sweep so far has no node cleaned.
    fn is_kept(&self) -> bool {
        match &self.best {
            Some(best) => best.swept.sweep.cleaned == 0,
            None => false,
        }
    }

    // The best sweep of a graph with some nodes cleaned, where it fits with all of them cleaned,
    // and not with none.
    fn between(
        &mut self,
        graph: &StateGraph,
        clean: Swept,
        trunk: &mut Option<Trunk>,
    ) -> Result<Swept, Stop> {
        let mut best = clean;
        let mut bracket = Bracket::of(best.sweep.cleaned, best.lines.work);
        let enough = self.left.saturating_sub(MOST_BETWEEN);
        for _ in 0..TURNS {
            let slack = self.room.saturating_sub(bracket.lines) as u64;
            if slack.saturating_mul(PER_LINE) < best.sweep.toffoli || self.left < enough {
                break;
            }
            let cleaned = bracket.next(slack);
            match self.swept(graph, best.choice.with_cleaned(cleaned), trunk)? {
                Some(found) => {
                    bracket.fit(cleaned, found.lines.work);
                    if found.size(self.ports) < best.size(self.ports) {
                        best = found;
                    }
                }
                None => bracket.fails = cleaned,
            }
        }
        Ok(best)
    }

    // A sweep that took little work, or the same without a margin where that is better.
    fn once_more(
        &mut self,
        graph: &StateGraph,
        swept: Swept,
        trunk: &mut Option<Trunk>,
    ) -> Result<Swept, Stop> {
        if swept.work > MOST_ONCE_MORE {
            return Ok(swept);
        }
        let gave_up = self.gave_up;
        let choice = Choice {
            margin: 0,
            ..swept.choice
        };
        let found = self.swept(graph, choice, trunk)?;
        self.gave_up = gave_up;
        match found {
            Some(found) if found.size(self.ports) < swept.size(self.ports) => Ok(found),
            _ => Ok(swept),
        }
    }

    // How a sweep goes.
    fn way(&self, choice: Choice) -> Way {
        let toffoli = match &self.best {
            Some(best) => best.swept.sweep.toffoli,
            None => u64::MAX,
        };
        Way {
            cleaned: choice.cleaned,
            is_beneath: choice.is_beneath,
            at_first: self.effort.at_first(),
            per_node: self.effort.per_node(),
            margin: choice.margin,
            rows: self.ports.saturating_add(self.room),
            toffoli,
        }
    }

    // A sweep, if its work is not too much, and it fits.
    fn swept(
        &mut self,
        graph: &StateGraph,
        choice: Choice,
        trunk: &mut Option<Trunk>,
    ) -> Result<Option<Swept>, Stop> {
        let mut work = Work::new(self.alloc, self.left.min(MOST_SWEPT));
        let found = sweep_over(&mut work, graph, self.way(choice), trunk);
        self.left = self.left.saturating_sub(work.spent());
        let sweep = match found {
            Err(Stop::GaveUp) => {
                let is_alike = choice.cleaned > 0 || graph.starts.len() < 2 || trunk.is_none();
                self.gave_up |= is_alike || self.effort == Effort::Brief;
                return Ok(None);
            }
            found => found?,
        };
        let Some(sweep) = sweep else {
            return Ok(None);
        };
        let lines = self.lines_of(graph, &sweep)?;
        if lines.work > self.room {
            return Ok(None);
        }
        Ok(Some(Swept {
            sweep,
            lines,
            choice,
            work: work.spent(),
        }))
    }

    fn lines_of(&self, graph: &StateGraph, sweep: &Sweep) -> Result<Lines, Stop> {
        let mut work = Work::new(self.alloc, 0);
        let lines = Lines::of(&mut work, graph, sweep);
        work.finish(lines)
    }
}

// Whether a graph has symbols for sums of inputs.
fn has_words(graph: &StateGraph) -> bool {
    for node in &graph.nodes {
        if node.is_sum() && node.below.is_empty() {
            return true;
        }
    }
    false
}

// Numbers of cleaned nodes, between which the one is that is sought.
#[derive(Clone, Copy)]
struct Bracket {
    /// With so many it fits, on so many work lines.
    fits: u32,
    lines: u32,
    /// With so many it does not.
    fails: u32,
    /// How many nodes more the try before had cleaned, and how many lines less it took.
    nodes: u64,
    gained: u64,
}

impl Bracket {
    // Between so many, with which it fits, and none. At first three nodes are taken for two lines.
    fn of(fits: u32, lines: u32) -> Bracket {
        Bracket {
            fits,
            lines,
            fails: 0,
            nodes: 3,
            gained: 2,
        }
    }

    // The number that is tried next: as many less as fill the lines that are left, as far as the
    // last ones tell; or the middle.
    fn next(self, slack: u64) -> u32 {
        let most = self.fits.saturating_sub(self.fails);
        match slack.saturating_mul(self.nodes).checked_div(self.gained) {
            Some(less) if less < most as u64 => self.fits.saturating_sub(less as u32),
            _ => self.fits.saturating_sub(most / 2),
        }
    }

    // Notes that it fits with so many, on so many work lines.
    fn fit(&mut self, cleaned: u32, lines: u32) {
        self.nodes = self.fits.saturating_sub(cleaned) as u64;
        self.gained = (lines.saturating_sub(self.lines) as u64).max(1);
        self.fits = cleaned;
        self.lines = lines;
    }
}
