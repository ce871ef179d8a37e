// Blocks of segments.
use plan_tools::Work;
use span_graphs::Range;

/// The blocks that are tried where no cleaning is enough: how many twentieths of the segments each
/// has, 0 where there is none.
pub const SHAPES: [[usize; 3]; 9] = [
    [4, 0, 0],
    [6, 0, 0],
    [8, 0, 0],
    [10, 0, 0],
    [6, 6, 0],
    [8, 6, 0],
    [10, 6, 0],
    [8, 6, 4],
    [10, 5, 3],
];

/// Blocks of so many twentieths of the segments, from the first on. Each ends at the segment before
/// which the rank is the least within a twentieth. There are none where one would be empty.
pub fn blocks_of(work: &mut Work, starts: &[u32], shape: &[usize], ranks: &[u32]) -> Vec<Range> {
    let mut blocks = Vec::new(work.alloc);
    let (mut from, mut share): (usize, usize) = (0, 0);
    for twentieths in shape {
        if *twentieths == 0 {
            break;
        }
        share = share.saturating_add(*twentieths);
        let middle = starts.len().saturating_mul(share) / 20;
        let Some(to) = least_within(starts, ranks, from, middle) else {
            blocks.clear();
            break;
        };
        let block = Range {
            from: number_at(starts, from),
            to: number_at(starts, to),
        };
        work.push(&mut blocks, block);
        from = to;
    }
    blocks
}

// The segment behind `from` with the least rank within a twentieth around `middle`.
fn least_within(starts: &[u32], ranks: &[u32], from: usize, middle: usize) -> Option<usize> {
    let near = starts.len() / 20;
    let first = middle.saturating_sub(near).max(from.saturating_add(1));
    let behind = middle
        .saturating_add(near)
        .saturating_add(1)
        .min(starts.len());
    let mut best: Option<(u32, usize, usize)> = None;
    for segment in first..behind {
        let rank = number_at(ranks, number_at(starts, segment) as usize);
        let key = (rank, segment.abs_diff(middle), segment);
        best = match best {
            Some(least) if least <= key => best,
            _ => Some(key),
        };
    }
    let (_, _, segment) = best?;
    Some(segment)
}

// The number at a place, 0 where there is none.
fn number_at(numbers: &[u32], place: usize) -> u32 {
    numbers.get(place).copied().unwrap_or(0)
}
