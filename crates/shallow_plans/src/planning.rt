// The best of the plans in layers.
use crate::writer::{Style, Written, write};
use layer_graphs::{LayerGraph, straighten};
use layer_times::{Found, best_timetable};
use line_moves::Moves;
use plan_tools::{Limits, Stop, Work};
use std::alloc::Global;
use sum_graph::SumGraph;

// The most nodes of a graph.
const MOST_NODES: u32 = 100_000;

// The most nodes that are looked at in all plans that are tried.
const MOST_WORK: u64 = 240_000_000;

// The most nodes of a graph for which more ways to write a plan are tried than those on all lines.
const FEW_NODES: usize = 50_000;

/// The moves of a plan in which the Toffoli gates stand in at most twice as many layers as the
/// graph has levels, or in more where there are too few lines for that. Each node of the graph has
/// at most one product, its outputs have none. The lines of outputs may hold anything: what comes
/// to them are the outputs alone.
///
/// Of the plans that are tried it is the one of the fewest layers, then of the fewest Toffoli
/// gates, and then of the fewest lines. It is written on as many lines as it needs, and on more: of
/// these it is that of the least lines times the cube of depth.
///
/// # Errors
///
/// `GaveUp` where none of the plans that are tried has few enough lines, or the graph is no such
/// graph, or too large a one.
pub fn plan(alloc: Global, graph: &SumGraph, limits: Limits) -> Result<Moves, Stop> {
    if graph.nodes() > MOST_NODES {
        return Err(Stop::GaveUp);
    }
    let mut work = Work::new(alloc, MOST_WORK);
    let mut graph = LayerGraph::of(&mut work, graph);
    let Some(most) = limits.work_lines(graph.ports()) else {
        return Err(Stop::GaveUp);
    };
    work.finish(())?;
    straighten(&mut work, &mut graph);
    let found = best_timetable(&mut work, &graph, most);
    work.finish(())?;
    match found {
        Some(found) => best_written(alloc, &found, most),
        None => Err(Stop::GaveUp),
    }
}

// How a timetable is written: on how many lines more than it needs, in sixteenths of these, and
// where factors stand.
#[derive(Clone, Copy)]
struct Way {
    sixteenths: u32,
    style: Style,
}

// The ways that are tried beside that on as many lines as are needed.
const WAYS: [Way; 6] = [
    Way {
        sixteenths: 0,
        style: Style::Held,
    },
    Way {
        sixteenths: 0,
        style: Style::Apart,
    },
    Way {
        sixteenths: 1,
        style: Style::Apart,
    },
    Way {
        sixteenths: 4,
        style: Style::Apart,
    },
    Way {
        sixteenths: u32::MAX,
        style: Style::Held,
    },
    Way {
        sixteenths: u32::MAX,
        style: Style::Apart,
    },
];

// The least costly of the plans of a timetable, on as many lines as it needs or on more.
fn best_written(alloc: Global, found: &Found, most: u32) -> Result<Moves, Stop> {
    let ports = found.graph.ports();
    let least = found.table.demand.lines;
    let lines = ports.saturating_add(least);
    let mut best = write(alloc, found, lines, Style::InPlace)?;
    for way in WAYS {
        if found.graph.nodes.len() > FEW_NODES && way.sixteenths < u32::MAX {
            continue;
        }
        let more = least.saturating_mul(way.sixteenths) / 16;
        let lines = ports.saturating_add(least.saturating_add(more).min(most));
        best = better(best, write(alloc, found, lines, way.style))?;
    }
    Ok(best.moves)
}

// The less costly of two plans, of which the other one may not have been found.
fn better(best: Written, other: Result<Written, Stop>) -> Result<Written, Stop> {
    match other {
        Ok(other) if other.cost < best.cost => Ok(other),
        Ok(_) | Err(Stop::GaveUp) => Ok(best),
        Err(stop) => Err(stop),
    }
}
