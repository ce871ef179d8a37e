// What sweeps that clean different numbers of nodes have in common.
use crate::growth::{Cuts, Segment};
use crate::needs::Score;
use crate::pivots::Pivots;
use crate::sweeper::{Counts, Sweeper};
use crate::sweeping::{End, Way};
use plan_tools::Work;
use state_rows::StateRows;

/// How far back a sweep has come.
#[derive(Drop)]
pub struct Stand {
    pub ends: Vec<End>,
    /// How many segments are left, and the place before which it stands.
    pub segments: usize,
    pub end: u32,
    pub score: Score,
    /// The units of work that it spent before it was resumed.
    pub spent: u64,
}

/// A sweep at the first segment that needs nodes beneath. Up to there all sweeps with its margin
/// go the same way, however many nodes they clean.
#[derive(Drop)]
pub struct Trunk {
    margin: usize,
    stand: Stand,
    rows: StateRows,
    pivots: Pivots,
    counts: Counts,
}

impl Stand {
    /// The cuts there.
    pub fn cuts<'c>(&self, starts: &'c [u32], way: Way) -> Cuts<'c> {
        Cuts {
            starts: &starts[..self.segments.min(starts.len())],
            end: self.end,
            cleaned: way.cleaned,
            score: self.score,
        }
    }

    /// Goes on before a segment, which begins at a place.
    pub fn pass(&mut self, segment: Segment, start: u32) {
        self.segments = self.segments.saturating_sub(segment.count);
        self.end = start;
        self.score = segment.score;
    }

    fn copy(&self, work: &mut Work, spent: u64) -> Stand {
        Stand {
            ends: work.copy(&self.ends),
            segments: self.segments,
            end: self.end,
            score: self.score,
            spent,
        }
    }
}

impl Trunk {
    /// Whether a sweep that goes so begins as this one.
    pub fn is_of(&self, way: Way) -> bool {
        self.margin == way.margin && !way.is_beneath
    }
}

impl Sweeper<'_> {
    /// A trunk that ends where the sweep stands.
    pub fn trunk(&mut self, stand: &Stand, margin: usize) -> Trunk {
        let spent = self.work.spent();
        Trunk {
            margin,
            stand: stand.copy(&mut self.work, spent),
            rows: self.rows.copy(&mut self.work),
            pivots: self.pivots.copy(&mut self.work),
            counts: self.counts,
        }
    }

    /// The sweep stands where a trunk ends.
    pub fn resume(&mut self, trunk: &Trunk) -> Stand {
        self.rows = trunk.rows.copy(&mut self.work);
        self.pivots = trunk.pivots.copy(&mut self.work);
        self.counts = trunk.counts;
        trunk.stand.copy(&mut self.work, trunk.stand.spent)
    }
}
