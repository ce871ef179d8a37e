// How long the way from each gate to the end is.
use crate::groups::{Groups, Step, Use};
use plan_tools::{NOWHERE, Table, Work, number};

/// Where a gate stands in the order that is tried: by its boundary, the gates of a layer behind all
/// others of the boundary before it; and then the longest way to the end first.
#[derive(Clone, Copy, PartialEq, Eq, PartialOrd, Ord)]
pub struct Rank {
    pub batch: u32,
    depth: u32,
    /// The place of the gate.
    pub place: u32,
}

// The longest way to the end from some gates, and the first boundary at which one of them stands.
#[derive(Clone, Copy)]
struct Ahead {
    height: u32,
    boundary: u32,
}

// What is known of the gates from the end on.
#[derive(Drop)]
struct Ways<'w> {
    groups: &'w Groups,
    /// Of each group the ways from its gates to the end.
    heights: Vec<Vec<u32>>,
    /// Of each group the longest way, once it is asked for; `NOWHERE` before that.
    longest: Table<u32>,
    /// Of each group the first boundary.
    boundaries: Table<u32>,
}

/// The ranks of gates, sorted. A gate outside of layers that nothing needs before the boundary
/// behind the next one may stand at the next one. In time near linear in the gates.
pub fn ranks(work: &mut Work, groups: &Groups, steps: &[Step]) -> Vec<Rank> {
    let mut ways = Ways {
        groups,
        heights: work.lists(groups.count()),
        longest: Table::new(work, groups.count(), NOWHERE),
        boundaries: Table::new(work, groups.count(), u32::MAX),
    };
    let mut ranks = Vec::new(work.alloc);
    for place in (0..steps.len()).rev() {
        if let (Some(step), Some(uses)) = (steps.get(place), groups.uses(number(place))) {
            let here = before(*step, ways.behind(uses));
            ways.note(work, uses, here);
            work.push(&mut ranks, rank_of(*step, here, number(place)));
        }
    }
    ranks.sort_unstable();
    ranks
}

impl Ways<'_> {
    // What is behind a gate on its lines.
    fn behind(&mut self, uses: [Use; 3]) -> Ahead {
        let mut all = Ahead {
            height: 0,
            boundary: u32::MAX,
        };
        for used in uses {
            let next = self.groups.next(used.group);
            all.height = all.height.max(self.longest(next));
            all.boundary = all.boundary.min(self.boundaries.get(next));
        }
        all
    }

    // The longest way from a group to the end, all of whose gates are noted; 0 where it is none.
    fn longest(&mut self, group: u32) -> u32 {
        let known = self.longest.get(group);
        if known != NOWHERE {
            return known;
        }
        let longest = match self.heights.get_mut(group as usize) {
            Some(heights) => longest_of(heights),
            None => 0,
        };
        self.longest.set(group, longest);
        longest
    }

    fn note(&mut self, work: &mut Work, uses: [Use; 3], here: Ahead) {
        for used in uses {
            if let Some(heights) = self.heights.get_mut(used.group as usize) {
                work.push(heights, here.height);
            }
            let boundary = self.boundaries.get(used.group).min(here.boundary);
            self.boundaries.set(used.group, boundary);
        }
    }
}

// The longest way to the end, where gates go one behind the other on a line, the one of the longest
// way first.
fn longest_of(heights: &mut [u32]) -> u32 {
    heights.sort_unstable();
    let mut longest = 0;
    let mut before: u32 = 0;
    for height in heights.iter().rev() {
        longest = height.saturating_add(before).max(longest);
        before = before.saturating_add(1);
    }
    longest
}

// The way from a gate to the end, and the boundary at which it may stand.
fn before(step: Step, behind: Ahead) -> Ahead {
    let latest = if step.is_toffoli() {
        step.boundary
    } else {
        step.boundary.saturating_add(1)
    };
    Ahead {
        height: behind.height.saturating_add(step.duration()),
        boundary: behind
            .boundary
            .saturating_sub(1)
            .min(latest)
            .max(step.boundary),
    }
}

fn rank_of(step: Step, here: Ahead, place: u32) -> Rank {
    Rank {
        batch: here
            .boundary
            .saturating_mul(2)
            .saturating_add(u32::from(step.is_toffoli())),
        depth: u32::MAX - here.height,
        place,
    }
}
