// Keys under which products are found that have something in common.
use linear_forms::{Fingerprint, Form};
use revc_base::Memory;

// A form has a key for each of its atoms where they are at most so many.
const FEW_ATOMS: u32 = 4;

// The keys of two factors, rising and each once: theirs, their sum's, and those of the atoms of a
// factor of few. A key is the first word of a fingerprint.
pub fn keys(first: &Form, second: &Form) -> Result<Vec<u64>, Memory> {
    let (one, other) = (key(first), key(second));
    let mut keys = Vec::from_slice(first.allocator(), &[one, other, one ^ other])?;
    push_atoms(&mut keys, first)?;
    push_atoms(&mut keys, second)?;
    keys.sort_unstable();
    keys.dedup();
    Ok(keys)
}

// The keys of the sums of a factor of one product and a factor of another one.
pub fn sum_keys(first: &Form, second: &Form, third: &Form, fourth: &Form) -> [u64; 4] {
    let (one, other) = (key(first), key(second));
    let (third, fourth) = (key(third), key(fourth));
    [one ^ third, one ^ fourth, other ^ third, other ^ fourth]
}

fn key(form: &Form) -> u64 {
    form.fingerprint().first
}

// The keys of the atoms of a form, where they are few.
fn push_atoms(keys: &mut Vec<u64>, form: &Form) -> Result<(), Memory> {
    if !has_few_atoms(form) {
        return Ok(());
    }
    for term in form.terms() {
        push_word(keys, term.place, term.word)?;
    }
    Ok(())
}

fn has_few_atoms(form: &Form) -> bool {
    if form.len() > FEW_ATOMS as usize {
        return false;
    }
    let mut count = 0;
    for term in form.terms() {
        count = term.word.count_ones().saturating_add(count);
    }
    count <= FEW_ATOMS
}

// The keys of the atoms of a word.
fn push_word(keys: &mut Vec<u64>, place: u32, word: u64) -> Result<(), Memory> {
    let first = place.wrapping_mul(64);
    let mut left = word;
    for _atom in 0..word.count_ones() {
        let atom = first.wrapping_add(left.trailing_zeros());
        keys.push(Fingerprint::atom(atom).first)?;
        left &= left.wrapping_sub(1);
    }
    Ok(())
}
