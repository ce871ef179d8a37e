// Programs of three and more products: a function is that of one half of the rows, and a product of
// the sum that parts the halves and of what both differ by.
use crate::functions::{forms_of, least_products, rank, turned};
use crate::programs::{Program, program_for};
use crate::spans::{ONE, VARIABLES, bit, has, mask_of, word_of};
use plan_tools::Work;

// The most sums that part a function which are tried, and what it costs to weigh one.
const MOST_TRIED: usize = 6;

const WEIGHING_UNITS: u64 = 30;

/// A program of at most so many products, of which none takes another word than sums of variables
/// and products.
pub fn from_variables(work: &mut Work, words: &[u64], goal: u64, most: usize) -> Option<Program> {
    let least = least_products(goal) as usize;
    if least > most {
        return None;
    }
    let found = if least <= 2 { few(work, goal) } else { None };
    let found = match found {
        Some(found) => found,
        None if most >= 3 => by_halves(work, goal, least)?,
        None => return None,
    };
    if found.products.len() > most {
        return None;
    }
    let mut images = Vec::new(work.alloc);
    for variable in VARIABLES {
        let image = mask_of(words, variable).unwrap_or(0);
        work.push(&mut images, image);
    }
    Some(found.moved(work, &images, words.len()))
}

/// Whether a function of few sums takes at most two products.
pub fn is_easy(goal: u64) -> bool {
    rank(goal) <= 4 && least_products(goal) <= 2
}

// A program over the variables of at most two products.
fn few(work: &mut Work, goal: u64) -> Option<Program> {
    let forms = forms_of(work, goal);
    let mut words = Vec::new(work.alloc);
    for form in &forms {
        work.push(&mut words, word_of(&VARIABLES, *form));
    }
    let found = program_for(work, &words, goal, 2)?;
    Some(found.moved(work, &forms, VARIABLES.len()))
}

// A function of the rows where a sum is 0, and what it differs by where it is 1.
#[derive(Clone, Copy, PartialEq, Eq, PartialOrd, Ord)]
struct Halves {
    least: u32,
    size: u32,
    mask: u32,
    base: u64,
    change: u64,
}

impl Halves {
    // Those of a sum of variables, turned where the mask has the constant.
    fn of(goal: u64, mask: u32) -> Halves {
        let sum = word_of(&VARIABLES, mask);
        let across = turned(goal, mask & mask.wrapping_neg());
        let base = goal & !sum | across & sum;
        let change = goal ^ across;
        Halves {
            least: least_products(base).saturating_add(least_products(change)),
            size: mask.count_ones(),
            mask,
            base,
            change,
        }
    }
}

fn by_halves(work: &mut Work, goal: u64, least: usize) -> Option<Program> {
    let mut best: Option<Program> = None;
    for halves in all_halves(work, goal).iter().take(MOST_TRIED) {
        for is_base_first in [true, false] {
            if let Some(found) = joined(work, halves, is_base_first)
                && best
                    .as_ref()
                    .is_none_or(|best| found.products.len() < best.products.len())
            {
                best = Some(found);
            }
        }
        if best
            .as_ref()
            .is_some_and(|best| best.products.len() <= least)
        {
            break;
        }
    }
    best
}

// All ways to part a function, those first that seem to take the fewest products.
fn all_halves(work: &mut Work, goal: u64) -> Vec<Halves> {
    let forms = forms_of(work, goal);
    let mut all = Vec::new(work.alloc);
    for parts in 1..bit(forms.len()) {
        let mut mask = 0;
        for (place, form) in forms.iter().enumerate() {
            if has(parts, place) {
                mask ^= *form;
            }
        }
        work.push(&mut all, Halves::of(goal, mask));
        work.push(&mut all, Halves::of(goal, mask | ONE));
    }
    work.spend(WEIGHING_UNITS.saturating_mul(all.len() as u64));
    work.note(all.sort());
    all
}

// The program of one half, then that of the other one, which may take the first one's products.
fn joined(work: &mut Work, halves: &Halves, is_base_first: bool) -> Option<Program> {
    let (one, other) = if is_base_first {
        (halves.base, halves.change)
    } else {
        (halves.change, halves.base)
    };
    let Program { mut products, out } = few(work, one)?;
    let words = words_with(work, &products);
    let second = match program_for(work, &words, other, 1) {
        Some(found) => found,
        None => {
            let identity = [1, 2, 4, 8, 16, 32];
            few(work, other)?.moved(work, &identity, words.len())
        }
    };
    work.append(&mut products, &second.products);
    let (base, change) = if is_base_first {
        (out, second.out)
    } else {
        (second.out, out)
    };
    let last = bit(VARIABLES.len().saturating_add(products.len()));
    work.push(&mut products, (halves.mask, change));
    Some(Program {
        products,
        out: base ^ last,
    })
}

// The variables, and the words of products.
fn words_with(work: &mut Work, products: &[(u32, u32)]) -> Vec<u64> {
    let mut words = work.copy(&VARIABLES);
    for (a, b) in products {
        let word = word_of(&words, *a) & word_of(&words, *b);
        work.push(&mut words, word);
    }
    words
}

impl Program {
    // The program with other sums in the place of its words, and its products from a place on.
    fn moved(&self, work: &mut Work, images: &[u32], first: usize) -> Program {
        let mut products = Vec::new(work.alloc);
        for (a, b) in &self.products {
            work.push(
                &mut products,
                (moved(*a, images, first), moved(*b, images, first)),
            );
        }
        Program {
            products,
            out: moved(self.out, images, first),
        }
    }
}

fn moved(mask: u32, images: &[u32], first: usize) -> u32 {
    let mut made = mask & ONE;
    for place in 0..31_usize {
        if has(mask & !ONE, place) {
            made ^= match images.get(place) {
                Some(image) => *image,
                None => bit(first.saturating_add(place.saturating_sub(images.len()))),
            };
        }
    }
    made
}
