// One product of few symbols.
use crate::naming::Names;
use plan_tools::Work;
use window_programs::{Program, Span, bit, mask_of};

// What a test of two factors costs.
const TEST_UNITS: u64 = 5;

// A sum that may be a factor: how many symbols it has, its mask and its word.
#[derive(Clone, Copy, PartialEq, Eq, PartialOrd, Ord)]
struct Factor {
    size: usize,
    mask: u32,
    word: u64,
}

/// A program of one product of the fewest symbols, fewer than so many; none where there is none.
pub fn simpler(work: &mut Work, names: &Names, goal: u64, most: usize) -> Option<Program> {
    if most <= 2 {
        return None;
    }
    let factors = factors_of(work, names, most);
    let (a, b) = least_pair(work, names, &factors, goal, most)?;
    let product = names.word(a) & names.word(b);
    let out = mask_of(&names.words, goal ^ product)?;
    let mut products = Vec::new(work.alloc);
    work.push(&mut products, (a, b));
    Some(Program {
        products,
        out: out | bit(names.words.len()),
    })
}

// The two factors with the fewest symbols whose product makes up the goal.
fn least_pair(
    work: &mut Work,
    names: &Names,
    factors: &[Factor],
    goal: u64,
    most: usize,
) -> Option<(u32, u32)> {
    let span = Span::of(&names.words);
    let goal = span.reduced(goal);
    let mut least = most;
    let mut best = None;
    for (place, first) in factors.iter().enumerate() {
        for second in factors.iter().skip(place).skip(1) {
            let size = first.size.saturating_add(second.size);
            if size >= least {
                break;
            }
            work.spend(TEST_UNITS);
            if span.reduced(first.word & second.word) == goal {
                least = size;
                best = Some((first.mask, second.mask));
            }
        }
    }
    best
}

// The sums of one name or two, and of a named sum and one more, the shortest first.
fn factors_of(work: &mut Work, names: &Names, most: usize) -> Vec<Factor> {
    let mut factors = Vec::new(work.alloc);
    for place in 0..names.words.len() {
        push_factor(
            work,
            names,
            names.form(place).len(),
            bit(place),
            most,
            &mut factors,
        );
        for other in 0..place {
            let mask = bit(place) | bit(other);
            let size = names.affine(work, mask).bits.len();
            push_factor(work, names, size, mask, most, &mut factors);
        }
    }
    for mask in &names.named {
        push_named(work, names, *mask, most, &mut factors);
    }
    work.note(factors.sort());
    factors
}

fn push_named(work: &mut Work, names: &Names, mask: u32, most: usize, factors: &mut Vec<Factor>) {
    push_factor(work, names, 1, mask, most, factors);
    for place in 0..names.words.len() {
        let size = names.form(place).len().saturating_add(1);
        push_factor(work, names, size, mask ^ bit(place), most, factors);
    }
}

fn push_factor(
    work: &mut Work,
    names: &Names,
    size: usize,
    mask: u32,
    most: usize,
    factors: &mut Vec<Factor>,
) {
    if size > 0 && size < most {
        let factor = Factor {
            size,
            mask,
            word: names.word(mask),
        };
        work.push(factors, factor);
    }
}
