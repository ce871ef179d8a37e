// Functions of six variables, as words of 64 rows.
use crate::spans::{Span, VARIABLES, word_of};
use plan_tools::Work;

/// How many sums of variables a function is one of, but for a sum that is added to it.
pub fn rank(function: u64) -> u32 {
    let mut count: u32 = 0;
    for direction in 0..64 {
        count = count.saturating_add(u32::from(is_free(function, direction)));
    }
    6_u32.saturating_sub(count.trailing_zeros())
}

/// How many products a function takes at least; of at most four sums, how many it takes.
pub fn least_products(function: u64) -> u32 {
    let degree = degree(function);
    match (rank(function), degree) {
        (0, _) | (_, 0 | 1) => 0,
        (rank, 2) => rank / 2,
        (3, _) | (4, 3) => 2,
        _ => degree.saturating_sub(1).max(3),
    }
}

/// The sums of variables that a function is one of, the shortest first.
pub fn forms_of(work: &mut Work, function: u64) -> Vec<u32> {
    let mut forms = Vec::new(work.alloc);
    let mut span = Span::new();
    for size in 1..=6 {
        for mask in 1..64_u32 {
            if mask.count_ones() == size
                && is_form(function, mask)
                && span.insert(word_of(&VARIABLES, mask))
            {
                work.push(&mut forms, mask);
            }
        }
    }
    forms
}

// Whether a sum of variables is the same at both ends of each free direction.
fn is_form(function: u64, mask: u32) -> bool {
    (1..64).all(|direction| {
        (mask & direction).count_ones() % 2 == 0 || !is_free(function, direction)
    })
}

// Whether a function changes by a constant where the variables of a mask do.
fn is_free(function: u64, direction: u32) -> bool {
    let change = function ^ turned(function, direction);
    change == 0 || change == u64::MAX
}

/// The function of the variables of which those of a mask are turned.
pub fn turned(function: u64, mask: u32) -> u64 {
    let mut function = function;
    for (place, variable) in VARIABLES.iter().enumerate() {
        if mask >> place & 1 == 1 {
            let step = 1 << place;
            function = (function & *variable) >> step | (function & !*variable) << step;
        }
    }
    function
}

// The most variables of a monomial.
fn degree(function: u64) -> u32 {
    let mut monomials = function;
    for (place, variable) in VARIABLES.iter().enumerate() {
        monomials ^= (monomials & !*variable) << (1 << place);
    }
    let mut degree = 0;
    for monomial in 0..64_u32 {
        if monomials >> monomial & 1 == 1 {
            degree = monomial.count_ones().max(degree);
        }
    }
    degree
}
