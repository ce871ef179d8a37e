// Steps for flips: each as late as it can stand, and then as early. No contract rests on them.
use crate::windows::{Windows, is_toffoli, lines_of};
use flip_lists::Flip;
use revc_base::Memory;
use std::alloc::Global;

/// Which depth is to become small first.
#[derive(Clone, Copy)]
pub enum Goal {
    /// The Toffoli depth, and then the depth.
    Toffoli,
    /// The depth, and then the Toffoli depth.
    Depth,
}

/// A step for each flip. It takes time linear in the flips and lines.
pub fn steps_for(
    alloc: Global,
    lines: u32,
    flips: &[Flip],
    goal: Goal,
) -> Result<Vec<u32>, Memory> {
    let none = Vec::new(alloc);
    let walk = Walk {
        flips,
        segments: &none,
        only_toffolis: false,
    };
    match goal {
        Goal::Depth => late_and_early(alloc, lines, walk),
        Goal::Toffoli => {
            let light = Walk {
                only_toffolis: true,
                ..walk
            };
            let steps = late_and_early(alloc, lines, light)?;
            within_levels(alloc, lines, flips, &steps)
        }
    }
}

// The flips that a pass goes over. Flips of one role on a line, but of two segments, keep their
// order. Where only Toffoli gates take steps, the other flips stand between two.
#[derive(Clone, Copy)]
struct Walk<'a> {
    flips: &'a [Flip],
    segments: &'a [u32],
    only_toffolis: bool,
}

// From the last flip to the first one, each as near to the end as it can stand; then in the order
// of these steps each as early as it can stand.
fn late_and_early(alloc: Global, lines: u32, walk: Walk<'_>) -> Result<Vec<u32>, Memory> {
    let late = late_steps(alloc, lines, walk)?;
    let turns = turns_by(alloc, &late)?;
    early_steps(alloc, lines, walk, &turns)
}

// Each as late as it can stand, where the earliest step is 0.
fn late_steps(alloc: Global, lines: u32, walk: Walk<'_>) -> Result<Vec<u32>, Memory> {
    let mut windows = Windows::new(alloc, lines)?;
    let mut late = vec![in alloc; 0; walk.flips.len()]?;
    for at in (0..walk.flips.len()).rev() {
        let step = step_at(&mut windows, walk, at);
        set(&mut late, at, step);
    }
    turn_round(&mut late);
    Ok(late)
}

fn turn_round(steps: &mut [u32]) {
    let most = greatest_of(steps);
    for at in 0..steps.len() {
        steps[at] = most.saturating_sub(steps[at]);
    }
}

fn greatest_of(steps: &[u32]) -> u32 {
    let mut greatest = 0;
    for step in steps {
        greatest = greatest.max(*step);
    }
    greatest
}

fn early_steps(
    alloc: Global,
    lines: u32,
    walk: Walk<'_>,
    turns: &[u32],
) -> Result<Vec<u32>, Memory> {
    let mut windows = Windows::new(alloc, lines)?;
    let mut early = vec![in alloc; 0; walk.flips.len()]?;
    for at in turns {
        let at = *at as usize;
        let step = step_at(&mut windows, walk, at);
        set(&mut early, at, step);
    }
    Ok(early)
}

// The step of the flip at a place, which comes next; where only Toffoli gates take steps, twice
// that, and one more for another flip.
fn step_at(windows: &mut Windows, walk: Walk<'_>, at: usize) -> u32 {
    let segment = number_at(walk.segments, at);
    match walk.flips.get(at) {
        None => 0,
        Some(flip) if !walk.only_toffolis => windows.take(*flip, segment),
        Some(flip) if is_toffoli(*flip) => windows.take(*flip, segment).saturating_mul(2),
        Some(flip) => windows
            .pass(*flip, segment)
            .saturating_mul(2)
            .saturating_add(1),
    }
}

// Steps for the flips in the order of others, by which no flip changes its Toffoli level.
fn within_levels(
    alloc: Global,
    lines: u32,
    flips: &[Flip],
    steps: &[u32],
) -> Result<Vec<u32>, Memory> {
    let turns = turns_by(alloc, steps)?;
    let turned = flips_at(alloc, flips, &turns)?;
    let segments = segments_of(alloc, lines, &turned)?;
    let walk = Walk {
        flips: &turned,
        segments: &segments,
        only_toffolis: false,
    };
    let steps = late_and_early(alloc, lines, walk)?;
    steps_back(alloc, &turns, &steps)
}

fn flips_at(alloc: Global, flips: &[Flip], turns: &[u32]) -> Result<Vec<Flip>, Memory> {
    let mut turned = Vec::with_capacity(alloc, turns.len())?;
    for at in turns {
        if let Some(flip) = flips.get(*at as usize) {
            turned.push(*flip)?;
        }
    }
    Ok(turned)
}

fn steps_back(alloc: Global, turns: &[u32], steps: &[u32]) -> Result<Vec<u32>, Memory> {
    let mut back = vec![in alloc; 0; turns.len()]?;
    for (turn, at) in turns.iter().enumerate() {
        set(&mut back, *at as usize, number_at(steps, turn));
    }
    Ok(back)
}

// Of each flip twice its Toffoli level, and one more where it is no Toffoli gate. A level is the
// greatest on the flip's lines, and one more for a Toffoli gate.
fn segments_of(alloc: Global, lines: u32, flips: &[Flip]) -> Result<Vec<u32>, Memory> {
    let mut levels = vec![in alloc; 0; lines as usize]?;
    let mut segments = Vec::with_capacity(alloc, flips.len())?;
    for flip in flips {
        let toffoli = u32::from(is_toffoli(*flip));
        let level = raised_level(&mut levels, *flip, toffoli);
        segments.push(level.saturating_mul(2).saturating_add(1 - toffoli))?;
    }
    Ok(segments)
}

fn raised_level(levels: &mut [u32], flip: Flip, more: u32) -> u32 {
    let [target, first, second] = lines_of(flip);
    let of_controls = number_at(levels, first).max(number_at(levels, second));
    let level = number_at(levels, target)
        .max(of_controls)
        .saturating_add(more);
    set(levels, target, level);
    set(levels, first, level);
    set(levels, second, level);
    level
}

/// The places of the flips by their steps, the earliest first, and those of one step in order.
pub fn turns_by(alloc: Global, steps: &[u32]) -> Result<Vec<u32>, Memory> {
    let mut next = counts_of(alloc, steps)?;
    sum_up(&mut next);
    let mut turns = vec![in alloc; 0; steps.len()]?;
    let mut at = 0u32;
    for step in steps {
        let turn = count_at(&mut next, *step as usize);
        set(&mut turns, turn as usize, at);
        at = at.saturating_add(1);
    }
    Ok(turns)
}

// How many flips have each step.
fn counts_of(alloc: Global, steps: &[u32]) -> Result<Vec<u32>, Memory> {
    let mut counts = vec![in alloc; 0; greatest_of(steps) as usize + 1]?;
    for step in steps {
        count_at(&mut counts, *step as usize);
    }
    Ok(counts)
}

// In place of each number the sum of those before it.
fn sum_up(numbers: &mut [u32]) {
    let mut sum = 0u32;
    for at in 0..numbers.len() {
        let number = numbers[at];
        numbers[at] = sum;
        sum = sum.saturating_add(number);
    }
}

// The number at a place, which rises by one.
fn count_at(numbers: &mut [u32], at: usize) -> u32 {
    let number = number_at(numbers, at);
    set(numbers, at, number.saturating_add(1));
    number
}

fn number_at(numbers: &[u32], at: usize) -> u32 {
    numbers.get(at).copied().unwrap_or(0)
}

fn set(numbers: &mut [u32], at: usize, number: u32) {
    if at < numbers.len() {
        numbers[at] = number;
    }
}
