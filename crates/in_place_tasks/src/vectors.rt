// Vectors over the field of two elements: words whose bits are the symbols, the first in the lowest
// bit of the first word.
use plan_tools::{Work, number};

/// How many words so many symbols take.
pub fn words_for(symbols: u32) -> usize {
    (symbols / 64) as usize + 1
}

pub fn has(vector: &[u64], symbol: u32) -> bool {
    match vector.get((symbol / 64) as usize) {
        Some(word) => (*word >> (symbol % 64)) & 1 == 1,
        None => false,
    }
}

/// Takes a symbol in, or out where it was in; nothing where there is no word for it.
pub fn flip(vector: &mut [u64], symbol: u32) {
    let place = (symbol / 64) as usize;
    if place < vector.len() {
        vector[place] ^= 1 << (symbol % 64);
    }
}

/// Adds a vector of as many words.
pub fn add(vector: &mut [u64], other: &[u64]) {
    add_from(vector, other, 0);
}

/// Adds the words of another vector from a place on.
pub fn add_from(vector: &mut [u64], other: &[u64], word: usize) {
    for place in word..vector.len() {
        vector[place] ^= other.get(place).copied().unwrap_or(0);
    }
}

pub fn is_none(vector: &[u64]) -> bool {
    vector.iter().all(|word| *word == 0)
}

/// The first symbol of a vector.
pub fn head_of(vector: &[u64]) -> Option<u32> {
    head_behind(vector, 0)
}

/// The first symbol of the words from a place on.
pub fn head_behind(vector: &[u64], word: usize) -> Option<u32> {
    for place in word..vector.len() {
        let word = vector[place];
        if word != 0 {
            let before = number(place).saturating_mul(64);
            return Some(word.trailing_zeros().saturating_add(before));
        }
    }
    None
}

/// The symbols of a vector, rising.
pub fn symbols_of(work: &mut Work, vector: &[u64]) -> Vec<u32> {
    let mut symbols = Vec::new(work.alloc);
    let mut place = 0;
    for word in vector {
        push_symbols(work, &mut symbols, number(place).saturating_mul(64), *word);
        place = place.saturating_add(1);
    }
    symbols
}

// Appends the symbols of a word, the first of which is this one.
fn push_symbols(work: &mut Work, symbols: &mut Vec<u32>, first: u32, word: u64) {
    let mut left = word;
    for _symbol in 0..word.count_ones() {
        work.push(symbols, left.trailing_zeros().saturating_add(first));
        left &= left.wrapping_sub(1);
    }
}
