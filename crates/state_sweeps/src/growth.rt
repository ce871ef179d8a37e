// Segments that grow until they close.
use crate::needs::{Range, Score};
use crate::sweeper::{Most, Saved, Sweeper};

/// Over how many cuts a segment grows at most.
const MOST_CUTS: usize = 6;

/// How often a segment is begun again with what was asked for in it.
const MOST_AGAIN: usize = 1000;

/// Up to how much is asked for in front.
const MOST_IN_FRONT: usize = 1000;

/// Where a sweep stands, and how it goes on.
#[derive(Clone, Copy)]
pub struct Cuts<'c> {
    /// The cuts before it.
    pub starts: &'c [u32],
    /// The place before which it stands.
    pub end: u32,
    /// Segments that begin before this place are cleaned.
    pub cleaned: u32,
    pub score: Score,
}

impl Cuts<'_> {
    /// The place at which a segment over so many cuts begins.
    pub fn start(self, count: usize) -> u32 {
        let at = self.starts.len().saturating_sub(count);
        self.starts.get(at).copied().unwrap_or(0)
    }

    // That segment.
    fn range(self, count: usize) -> Range {
        Range {
            from: self.start(count),
            to: self.end,
        }
    }
}

/// A segment over so many cuts, and how much is needed beneath before it.
#[derive(Clone, Copy)]
pub struct Segment {
    pub count: usize,
    pub score: Score,
}

// A segment that was tried.
#[derive(Drop)]
struct Trial {
    segment: Segment,
    asked: u32,
    /// What was asked for in front of it.
    front: Vec<Vec<u32>>,
}

impl Sweeper<'_> {
    /// Back over a segment of as few cuts as keep nothing, and ask for nothing that needs more
    /// beneath; or, if there is none, of those that need the fewest nodes beneath. None where a
    /// node beneath is met while that is watched: nothing is changed then.
    pub fn back_over_segment(&mut self, cuts: Cuts<'_>) -> Option<Segment> {
        let saved = self.save();
        self.set_most(u32::MAX, u32::MAX);
        let mut best: Option<Trial> = None;
        for count in 1..cuts.starts.len().min(MOST_CUTS).saturating_add(1) {
            if let Some(trial) = self.attempt(cuts, count, saved) {
                if self.is_good(&trial, cuts.score, saved) {
                    self.rows.keep();
                    return Some(trial.segment);
                }
                best = better(best, trial);
            }
            self.undo(saved);
            if self.has_met() {
                break;
            }
            if let Some(best) = &best {
                self.set_most(best.asked, saved.counts().kept);
            }
        }
        self.set_most(u32::MAX, u32::MAX);
        self.rows.keep();
        if self.has_met() {
            return None;
        }
        self.again(cuts, &best?)
    }

    fn set_most(&mut self, asked: u32, kept: u32) {
        self.most = Most { asked, kept };
    }

    // Whether a segment keeps nothing, and needs no more beneath than what is behind it.
    fn is_good(&self, trial: &Trial, score: Score, saved: Saved) -> bool {
        let now = trial.segment.score;
        let needs_more = now.pivots > score.pivots || now.nodes > score.nodes;
        !needs_more && self.counts.kept == saved.counts().kept
    }

    // Tries a segment: again, with what was asked for in it in front, until nothing more is.
    fn attempt(&mut self, cuts: Cuts<'_>, count: usize, saved: Saved) -> Option<Trial> {
        let range = cuts.range(count);
        let mut front = Vec::new(self.work.alloc);
        for _ in 0..MOST_AGAIN {
            self.undo(saved);
            self.insert_all(&front);
            if !self.back_over(range, range.from < cuts.cleaned) {
                return None;
            }
            if self.requests.is_empty() || front.len() > MOST_IN_FRONT {
                break;
            }
            self.work.note(front.append(&mut self.requests));
        }
        let score = if self.counts.asked > saved.counts().asked {
            self.score(range.from)
        } else {
            cuts.score
        };
        Some(Trial {
            segment: Segment { count, score },
            asked: self.counts.asked,
            front,
        })
    }

    // Asks for vectors beneath.
    fn insert_all(&mut self, vectors: &[Vec<u32>]) {
        for vector in vectors {
            if self.rows.insert(&mut self.work, vector) {
                self.counts.asked = self.counts.asked.saturating_add(1);
            }
        }
    }

    // Back over a segment as it was tried.
    fn again(&mut self, cuts: Cuts<'_>, trial: &Trial) -> Option<Segment> {
        let range = cuts.range(trial.segment.count);
        self.insert_all(&trial.front);
        if self.back_over(range, range.from < cuts.cleaned) {
            Some(trial.segment)
        } else {
            None
        }
    }
}

// The one of two trials that needs fewer nodes beneath.
fn better(best: Option<Trial>, trial: Trial) -> Option<Trial> {
    match best {
        Some(best) if best.segment.score.nodes <= trial.segment.score.nodes => Some(best),
        _ => Some(trial),
    }
}
