// The span plan of a graph.
use crate::replaying::{WorkLines, moves_of};
use crate::thinning::{lone_copies, turns_without};
use line_moves::Moves;
use plan_tools::{Limits, Stop, Work, number};
use span_graphs::SpanGraph;
use span_lowering::lower;
use span_sweeps::{Candidate, Candidates, MOST_SWEPT, best_sweeps, sweep_over};
use std::alloc::Global;
use sum_graph::SumGraph;

/// The moves of the best span plan that a search of bounded work finds within limits, by Toffoli
/// gates, then by lines times gates, then by lines, which no clause says. Plans of more than
/// `toffoli` Toffoli gates are not looked for. How many gates it has is looked at by whoever
/// follows the moves.
///
/// # Errors
///
/// `GaveUp` where no plan is found; `Memory` where memory is refused. No clause says so.
pub fn plan(alloc: Global, graph: &SumGraph, limits: Limits, toffoli: u64) -> Result<Moves, Stop> {
    let ports = graph.inputs().saturating_add(number(graph.outputs().len()));
    let Some(room) = limits.work_lines(ports) else {
        return Err(Stop::GaveUp);
    };
    let lowered = lower(alloc, graph)?;
    let others = ports.saturating_add(limits.borrow);
    let candidates = best_sweeps(alloc, &lowered, others, room, toffoli)?;
    let replays = Replays {
        alloc,
        sums: graph,
        graph: &lowered,
        lines: WorkLines { ports, room },
    };
    replays.best(&candidates)
}

// How sweeps of a graph are replayed.
#[derive(Clone, Copy)]
struct Replays<'g> {
    alloc: Global,
    sums: &'g SumGraph,
    graph: &'g SpanGraph,
    lines: WorkLines,
}

impl Replays<'_> {
    // The moves of the best sweep. It gives up where no sweep fits.
    fn best(&self, candidates: &Candidates) -> Result<Moves, Stop> {
        match self.thin(&candidates.near) {
            Err(Stop::GaveUp) => {}
            done => return done,
        }
        match self.thin(&candidates.best) {
            Err(Stop::GaveUp) => {}
            done => return done,
        }
        match &candidates.best {
            Some(best) => moves_of(self.alloc, self.graph, &best.sweep, self.lines),
            None => Err(Stop::GaveUp),
        }
    }

    // The moves of a sweep with nodes written out. It gives up where it is worse so, or does not
    // fit.
    fn thin(&self, candidate: &Option<Candidate>) -> Result<Moves, Stop> {
        let Some(candidate) = candidate else {
            return Err(Stop::GaveUp);
        };
        let mut work = Work::new(self.alloc, MOST_SWEPT);
        let marks = lone_copies(&mut work, self.graph, &candidate.sweep.events);
        let turns = turns_without(&mut work, &candidate.turns, &marks);
        work.finish(())?;
        if !marks.items().contains(&true) {
            return Err(Stop::GaveUp);
        }
        let mut graph = lower(self.alloc, self.sums)?;
        graph.write_out(&mut work, &marks);
        let thin = sweep_over(work, &graph, &turns, &candidate.forced)?;
        if !thin.measures.is_no_worse_than(candidate.sweep.measures) {
            return Err(Stop::GaveUp);
        }
        moves_of(self.alloc, &graph, &thin, self.lines)
    }
}
