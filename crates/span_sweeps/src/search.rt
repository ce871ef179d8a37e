// Which schedule is swept for the best plan.
ghost use Rattle.span_sweeps.specs.Limits.{LimitsAre};

use crate::bounds::Bounds;
use crate::measures::Measures;
use crate::rule::Rule;
use crate::shapes::{SHAPES, blocks_of};
use crate::sweeping::{Sweep, sweep_over};
use plan_tools::{Size, Stop, Table, Work};
use span_graphs::{Blocks, Range, Scheduling, SpanGraph, Turn, chains, minima, repeats};
use std::alloc::Global;

/// The most work that all sweeps of a search take together: the symbols that they add, and what
/// their turns count.
const MOST_WORK: u64 = 250_000_000;

/// What a turn of a sweep counts beside its symbols.
const TURN: u64 = 16;

/// The most symbols that one sweep adds.
pub const MOST_SWEPT: u64 = 50_000_000;

/// The limits are these numbers. The function does nothing: its contract is the law.
pub fn limits_are()
    ensures { LimitsAre }
{}

/// How many additions the row of a node without products may take before it gets a line of its own.
const MOST_ADDITIONS: usize = 4;

/// The most sweeps by which the number of segments that are cleaned is looked for.
const MOST_HALVINGS: u32 = 64;

/// How many depths of minima are tried, each twice the one before.
const MOST_DEPTHS: u32 = 32;

/// How many rules are tried with blocks.
const MOST_BLOCKED: usize = 2;

/// The lines of a rule that is not tried with blocks.
const NEVER: u32 = u32::MAX;

/// How many lines more than there may be a sweep is kept with, whose nodes may be written out.
const MOST_OVER: u32 = 64;

// What a sweep of a rule tells.
#[derive(Clone, Copy)]
struct Outcome {
    /// Whether it fits, or an earlier one did.
    fits: bool,
    measures: Measures,
    /// Whether another one would go otherwise, by what the rule learned.
    is_new: bool,
}

impl Outcome {
    /// Of a sweep that was not done, as the work is spent.
    const NONE: Outcome = Outcome {
        fits: false,
        measures: Measures::NONE,
        is_new: false,
    };
}

/// A sweep, with what it went over.
#[derive(Drop)]
pub struct Candidate {
    pub sweep: Sweep,
    pub turns: Vec<Turn>,
    /// Of each node, whether its rows had to have no other symbol.
    pub forced: Table<bool>,
}

/// What a search found: the best sweep that fits, and a better one that takes some lines too many.
#[derive(Drop)]
pub struct Candidates {
    pub best: Option<Candidate>,
    pub near: Option<Candidate>,
}

// The best sweep of its kind so far, and what its plan costs.
#[derive(Drop)]
struct Best {
    size: Size,
    candidate: Option<Candidate>,
}

impl Best {
    // None yet, where only sweeps of at most so many Toffoli gates are kept.
    fn none(toffoli: u64) -> Best {
        Best {
            size: Size::new(toffoli, u32::MAX, u64::MAX),
            candidate: None,
        }
    }

    // Keeps a sweep that is better.
    fn keep(&mut self, size: Size, candidate: Candidate) {
        if size < self.size {
            self.size = size;
            self.candidate = Some(candidate);
        }
    }
}

// The best sweeps so far.
#[derive(Drop)]
struct Search<'g> {
    work: Work,
    graph: &'g SpanGraph,
    /// The lines beside work lines.
    ports: u32,
    /// How many work lines there may be.
    room: u32,
    best: Best,
    /// Of those that take some lines too many.
    near: Best,
}

/// The best sweep that fits `room` work lines beside `ports` other lines: first without cleaning,
/// and where that takes too many lines, with as few segments cleaned as there have to be. Where the
/// work is spent, what was found until then counts. Sweeps of more than `toffoli` Toffoli gates are
/// left out, and all others where the first one has more: cleaning adds to them.
///
/// # Errors
///
/// `Memory` where memory is refused. No clause says so.
pub fn best_sweeps(
    alloc: Global,
    graph: &SpanGraph,
    ports: u32,
    room: u32,
    toffoli: u64,
) -> Result<Candidates, Stop> {
    let mut search = Search {
        work: Work::new(alloc, MOST_WORK),
        graph,
        ports,
        room,
        best: Best::none(toffoli),
        near: Best::none(toffoli),
    };
    search.try_all();
    if let Err(Stop::Memory(memory)) = search.work.finish(()) {
        return Err(Stop::Memory(memory));
    }
    let Search { best, near, .. } = search;
    let is_better = near.size < best.size;
    Ok(Candidates {
        best: best.candidate,
        near: if is_better { near.candidate } else { None },
    })
}

impl Search<'_> {
    fn try_all(&mut self) {
        let mut segments = Vec::new(self.work.alloc);
        if self.try_most(&mut segments, usize::MAX) {
            self.try_most(&mut segments, MOST_ADDITIONS);
        }
    }

    // All nodes in one segment, and then the rules for segments, which are found by that if there
    // are none yet; whether something fits without cleaning.
    fn try_most(&mut self, segments: &mut Vec<Vec<u32>>, most: usize) -> bool {
        let mut whole = Rule::whole(&mut self.work, self.graph.nodes.len());
        let outcome = self.sweep_twice(&mut whole, most, 0);
        if self.is_beyond(outcome.measures.toffoli) || self.is_too_wide(&whole.ranks) {
            return false;
        }
        if segments.is_empty() {
            self.find_segments(segments, &whole.ranks);
        }
        let mut rules = whole.with_each(&mut self.work, segments);
        for rule in rules.iter_mut() {
            rule.work = self.sweep_twice(rule, most, 0).measures.work;
        }
        let fits = self.best.candidate.is_some();
        if !fits {
            self.try_cleaned(&mut rules, most, &whole.ranks);
        }
        fits
    }

    // Each rule with some segments cleaned, and, if none of them fits, with blocks, where not even
    // those without have too many Toffoli gates.
    fn try_cleaned(&mut self, rules: &mut Vec<Rule>, most: usize, ranks: &[u32]) {
        for rule in rules.iter_mut() {
            rule.least = self.clean(rule, most);
        }
        if self.best.candidate.is_some() {
            return;
        }
        self.work.note(rules.sort_by_key(|rule| rule.least));
        for rule in rules.iter_mut().take(MOST_BLOCKED) {
            if rule.least != NEVER {
                self.try_blocks(rule, most, ranks);
            }
        }
    }

    // A rule with all segments cleaned, and the first ones in blocks: of more and more segments, for
    // more and more Toffoli gates.
    fn try_blocks(&mut self, rule: &mut Rule, most: usize, ranks: &[u32]) {
        for shape in &SHAPES {
            let ranges = blocks_of(&mut self.work, &rule.starts, shape, ranks);
            if self.may_have(&ranges) && !self.try_shape(rule, most, &ranges) {
                break;
            }
        }
    }

    // A rule with blocks, and with some nodes made once more behind these; whether larger blocks may
    // have few enough Toffoli gates.
    fn try_shape(&mut self, rule: &mut Rule, most: usize, ranges: &[Range]) -> bool {
        let all = rule.starts.len();
        let blocks = Blocks {
            ranges,
            ..Blocks::NONE
        };
        let outcome = self.try_sweep(rule, most, all, blocks);
        if self.is_beyond(outcome.measures.toffoli) {
            return false;
        }
        let repeats = repeats(&mut self.work, self.graph, ranges);
        let repeats = repeats.items();
        if repeats.contains(&true) {
            self.try_sweep(rule, most, all, Blocks { ranges, repeats });
        }
        true
    }

    // Whether there are blocks, and no node of them stays on the line of an output.
    fn may_have(&self, blocks: &[Range]) -> bool {
        let Some(last) = blocks.last() else {
            return false;
        };
        for node in self.graph.nodes.iter().take(last.to as usize) {
            if node.home.is_some() {
                return false;
            }
        }
        true
    }

    // Appends the rules for segments: by chains, and by minima of the ranks that are deeper and
    // deeper.
    fn find_segments(&mut self, segments: &mut Vec<Vec<u32>>, ranks: &[u32]) {
        let starts = chains(&mut self.work, self.graph);
        self.push_new(segments, starts);
        let mut depth: u32 = 1;
        for _ in 0..MOST_DEPTHS {
            let starts = minima(&mut self.work, ranks, depth);
            if starts.len() <= 1 {
                break;
            }
            self.push_new(segments, starts);
            depth = depth.saturating_mul(2);
        }
    }

    // Appends a rule of several segments, where it is not the last one again.
    fn push_new(&mut self, segments: &mut Vec<Vec<u32>>, starts: Vec<u32>) {
        if starts.len() > 1 && segments.last() != Some(&starts) {
            self.work.push(segments, starts);
        }
    }

    // Looks for the least number of segments that have to be cleaned, where all of them are enough;
    // the lines of the sweep that cleans all, and `NEVER` where it has too many Toffoli gates.
    fn clean(&mut self, rule: &mut Rule, most: usize) -> u32 {
        let all = rule.starts.len();
        let outcome = self.sweep_twice(rule, most, all);
        let least = outcome.measures.work;
        if !outcome.fits {
            let too_many = self.is_beyond(outcome.measures.toffoli);
            return if too_many { NEVER } else { least };
        }
        let mut bounds = Bounds {
            no: 0,
            yes: all,
            over: rule.work.saturating_sub(self.room),
            under: self.room.saturating_sub(least),
        };
        for halving in 0..MOST_HALVINGS {
            let Some(middle) = bounds.middle(halving % 2 == 0) else {
                break;
            };
            let Outcome { fits, measures, .. } = self.try_sweep(rule, most, middle, Blocks::NONE);
            if fits {
                bounds.yes = middle;
                bounds.under = self.room.saturating_sub(measures.work);
            } else {
                bounds.no = middle;
                bounds.over = measures.work.saturating_sub(self.room);
                if self.is_beyond(measures.toffoli) {
                    break;
                }
            }
        }
        least
    }

    // Whether the best plan has fewer Toffoli gates than these.
    fn is_beyond(&self, toffoli: u64) -> bool {
        self.best.size.toffoli < toffoli
    }

    // Whether more rows than there may be lines are wanted at a moment, at which any schedule of
    // the same order wants as many.
    fn is_too_wide(&self, ranks: &[u32]) -> bool {
        let lines = self.ports.saturating_add(self.room);
        let most = lines.saturating_add(MOST_OVER);
        ranks.iter().any(|rank| *rank > most)
    }

    // A sweep, and a second one where the first one told more of nodes without products.
    fn sweep_twice(&mut self, rule: &mut Rule, most: usize, cleaned: usize) -> Outcome {
        let first = self.try_sweep(rule, most, cleaned, Blocks::NONE);
        if !first.is_new {
            return first;
        }
        let mut second = self.try_sweep(rule, most, cleaned, Blocks::NONE);
        second.fits |= first.fits;
        second
    }

    // A sweep, from which the rule learns.
    fn try_sweep(
        &mut self,
        rule: &mut Rule,
        most: usize,
        cleaned: usize,
        blocks: Blocks<'_>,
    ) -> Outcome {
        match self.sweep(rule, cleaned, blocks) {
            Ok(mut candidate) => {
                let is_new = rule.learn(self.graph, &candidate.sweep.events, most);
                rule.ranks = self.work.take(&mut candidate.sweep.ranks);
                self.judge(candidate, is_new)
            }
            Err(stop) => {
                self.work.stop(stop);
                Outcome::NONE
            }
        }
    }

    fn sweep(
        &mut self,
        rule: &Rule,
        cleaned: usize,
        blocks: Blocks<'_>,
    ) -> Result<Candidate, Stop> {
        self.work.finish(())?;
        let scheduling = Scheduling {
            starts: &rule.starts,
            cleaned,
            copies: &rule.copies,
            blocks,
        };
        let turns = scheduling.schedule(&mut self.work, self.graph);
        let forced = rule.forced.copy(&mut self.work);
        let sweep = sweep_over(self.work.part(MOST_SWEPT), self.graph, &turns, &forced)?;
        self.work.spend(sweep.work);
        self.work.spend((turns.len() as u64).saturating_mul(TURN));
        Ok(Candidate {
            sweep,
            turns,
            forced,
        })
    }

    // Keeps a sweep that is better than the best so far and fits, or takes some lines too many.
    fn judge(&mut self, candidate: Candidate, is_new: bool) -> Outcome {
        let measures = candidate.sweep.measures;
        let lines = self.ports.saturating_add(measures.work);
        let size = Size::new(measures.toffoli, lines, measures.gates());
        let fits = measures.work <= self.room;
        if fits {
            self.best.keep(size, candidate);
        } else if measures.work - self.room <= MOST_OVER {
            self.near.keep(size, candidate);
        }
        Outcome {
            fits,
            measures,
            is_new,
        }
    }
}
