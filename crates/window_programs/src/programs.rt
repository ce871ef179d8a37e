// How a word is made with few products from words that there are.
use crate::spans::{ONE, Span, bit, mask_of_parts, parts_of, word_of};
use plan_tools::Work;

/// Products, one after another, and a sum of what there is: a mask has a bit for each word, then
/// one for each product, and the last one for the constant.
#[derive(Drop)]
pub struct Program {
    pub products: Vec<(u32, u32)>,
    pub out: u32,
}

// What the test of a program costs.
const TEST_UNITS: u64 = 10;

// The most words of which all sums are tried as the factor of the only product, and as factors of
// two.
const MOST_FOR_ONE: usize = 8;

const MOST_FOR_TWO: usize = 6;

/// A program of at most so many products, two at most.
pub fn program_for(work: &mut Work, words: &[u64], goal: u64, most: usize) -> Option<Program> {
    let span = Span::of(words);
    work.spend(TEST_UNITS);
    if span.reduced(goal) == 0 {
        return of_none(work, words, goal);
    }
    if most >= 1
        && let Some(found) = of_one(work, words, &span, goal)
    {
        return Some(found);
    }
    if most >= 2 && words.len() <= MOST_FOR_ONE {
        return of_two(work, words, &span, goal);
    }
    None
}

fn of_none(work: &mut Work, words: &[u64], goal: u64) -> Option<Program> {
    let parts = parts_of(words, goal)?;
    Some(Program {
        products: Vec::new(work.alloc),
        out: mask_of_parts(words.len(), parts),
    })
}

// The sums of words that are tried as a factor: all of few, else those of one, two or, of no more
// than ten words, three.
fn factors(work: &mut Work, count: usize, few: usize) -> Vec<u32> {
    let mut masks = Vec::new(work.alloc);
    if count <= few && count < 31 {
        for mask in 1..bit(count) {
            work.push(&mut masks, mask);
        }
        return masks;
    }
    for i in 0..count {
        work.push(&mut masks, bit(i));
    }
    for i in 0..count {
        for j in 0..i {
            work.push(&mut masks, bit(i) | bit(j));
        }
    }
    if count <= 10 {
        push_triples(work, count, &mut masks);
    }
    masks
}

fn push_triples(work: &mut Work, count: usize, masks: &mut Vec<u32>) {
    for i in 0..count {
        for j in 0..i {
            for k in 0..j {
                work.push(masks, bit(i) | bit(j) | bit(k));
            }
        }
    }
}

// `goal = a b + r`: once the factor `a` is fixed, `b` and `r` are found by one elimination.
fn of_one(work: &mut Work, words: &[u64], span: &Span, goal: u64) -> Option<Program> {
    for mask in &factors(work, words.len(), MOST_FOR_ONE) {
        let factor = word_of(words, *mask);
        work.spend(TEST_UNITS);
        if with_multiples(span, words, factor).reduced(goal) == 0 {
            return with_one(work, words, goal, *mask);
        }
    }
    None
}

// The span with the products of a factor and each word.
fn with_multiples(span: &Span, words: &[u64], factor: u64) -> Span {
    let mut span = *span;
    for word in words {
        span.insert(factor & word);
    }
    span
}

fn with_one(work: &mut Work, words: &[u64], goal: u64, mask: u32) -> Option<Program> {
    let mut all = work.copy(words);
    push_multiples(work, words, u64::MAX, word_of(words, mask), &mut all);
    let parts = parts_of(&all, goal)?;
    let count = words.len();
    Some(Program {
        products: one_product(work, mask, second_mask(count, parts, 1)),
        out: mask_of_parts(count, parts) ^ bit(count),
    })
}

fn one_product(work: &mut Work, a: u32, b: u32) -> Vec<(u32, u32)> {
    let mut products = Vec::new(work.alloc);
    work.push(&mut products, (a, b));
    products
}

// Appends the constant, where it is wanted first, and the products of a factor and each word.
fn push_multiples(work: &mut Work, words: &[u64], one: u64, factor: u64, all: &mut Vec<u64>) {
    if one != 0 {
        work.push(all, one);
    }
    for word in words {
        work.push(all, factor & word);
    }
}

// The words in the block of multiples with this number, counted from 1, behind the constant.
fn second_mask(count: usize, parts: u64, block: usize) -> u32 {
    let from = count.saturating_mul(block).saturating_add(1);
    let parts = if from < 64 { parts >> from } else { 0 };
    mask_of_parts(count, parts) & !ONE
}

// Two products: `goal = a2 b2 + w b1 + r`, where `w` is `a1`, `a1 a2` or `a1 (a2 + 1)`.
fn of_two(work: &mut Work, words: &[u64], span: &Span, goal: u64) -> Option<Program> {
    let masks = factors(work, words.len(), MOST_FOR_TWO);
    for second in &masks {
        let wider = with_multiples(span, words, word_of(words, *second));
        for first in &masks {
            if let Some(found) = of_pair(work, words, &wider, goal, (*first, *second)) {
                return Some(found);
            }
        }
    }
    None
}

// How the first product goes into the second one.
#[derive(Clone, Copy)]
enum Nesting {
    Beside,
    Within,
    Both,
}

fn of_pair(
    work: &mut Work,
    words: &[u64],
    wider: &Span,
    goal: u64,
    pair: (u32, u32),
) -> Option<Program> {
    for nesting in [Nesting::Beside, Nesting::Within, Nesting::Both] {
        let by = factor_of(words, pair, nesting);
        work.spend(TEST_UNITS);
        if with_multiples(wider, words, by).reduced(goal) == 0 {
            return with_two(work, words, goal, pair, nesting);
        }
    }
    None
}

fn factor_of(words: &[u64], pair: (u32, u32), nesting: Nesting) -> u64 {
    let (a1, a2) = (word_of(words, pair.0), word_of(words, pair.1));
    match nesting {
        Nesting::Beside => a1,
        Nesting::Within => a1 & a2,
        Nesting::Both => a1 & !a2,
    }
}

fn with_two(
    work: &mut Work,
    words: &[u64],
    goal: u64,
    pair: (u32, u32),
    nesting: Nesting,
) -> Option<Program> {
    let mut all = work.copy(words);
    push_multiples(work, words, u64::MAX, word_of(words, pair.1), &mut all);
    push_multiples(work, words, 0, factor_of(words, pair, nesting), &mut all);
    let parts = parts_of(&all, goal)?;
    let count = words.len();
    let (first, second) = (bit(count), bit(count.saturating_add(1)));
    let b2 = second_mask(count, parts, 1);
    let b1 = second_mask(count, parts, 2);
    let (within, out) = match nesting {
        Nesting::Beside => (0, first ^ second),
        Nesting::Within => (first, second),
        Nesting::Both => (first, first ^ second),
    };
    let mut products = one_product(work, pair.0, b1);
    work.push(&mut products, (pair.1, b2 ^ within));
    Some(Program {
        products,
        out: mask_of_parts(count, parts) ^ out,
    })
}
