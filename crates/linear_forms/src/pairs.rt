// Pairs of factors over a basis.
ghost use Rattle.std.specs.Prelude.{◌≡◌, ℕ, ◌<◌, ◌≤◌, ◌&&◌, Bool, true, Option, Some};
ghost use Rattle.std.specs.Bool.{xor};
ghost use Rattle.linear_forms.specs.Sums.{xor_by};
ghost use Rattle.linear_forms.specs.Pairs.{IsSumOf, alone_in, is_in, times};

/// The exclusive sum of the members of a basis that are in the set, and of 1 where it has that.
#[derive(Clone, Copy)]
pub struct Factor {
    pub set: u64,
    pub one: bool,
}

/// A product of two factors.
#[derive(Clone, Copy)]
pub struct Pair {
    pub first: Factor,
    pub second: Factor,
}

/// The sum of the products, where it is linear.
pub fn linear_sum(pairs: &[Pair], size: u32) -> Option<Factor>
    requires few { size ≤ 64 }
    ensures { (sum : _) → result ≡ Some sum → IsSumOf size pairs.now sum }
{
    if is_symmetric(pairs, size) {
        Some(alone(pairs))
    } else {
        None
    }
}

// Each product stands as often as the one with its factors exchanged.
fn is_symmetric(pairs: &[Pair], size: u32) -> bool
    requires few { size ≤ 64 }
    ensures { result ≡ true → (i j : ℕ) → i < size → times pairs.now i j ≡ times pairs.now j i }
{
    for place in 0..size {
        if exchanged(pairs, place) != 0 {
            return false;
        }
    }
    true
}

// The members that stand with this one in one order, and not in the other.
fn exchanged(pairs: &[Pair], place: u32) -> u64
    requires low { place < 64 }
    ensures { (j : ℕ) → is_in result j ≡ xor (times pairs.now place j) (times pairs.now j place) }
{
    let mut row = 0;
    for pair in pairs {
        row ^= beside(pair.first.set, pair.second.set, place)
            ^ beside(pair.second.set, pair.first.set, place);
    }
    row
}

// The one set, where this member is in the other.
fn beside(set: u64, other: u64, place: u32) -> u64
    requires low { place < 64 }
    ensures { (j : ℕ) → is_in result j ≡ (is_in set place && is_in other j) }
{
    if (set >> place) & 1 == 1 { other } else { 0 }
}

// Where the products of different members cancel, what is left.
fn alone(pairs: &[Pair]) -> Factor
    ensures set { (i : ℕ) → is_in result.set i ≡ xor_by (λ p. alone_in p i) pairs.now }
    ensures one { result.one ≡ xor_by (λ p. p.first.one && p.second.one) pairs.now }
{
    let mut set = 0;
    let mut one = false;
    for pair in pairs {
        set ^= left_alone(pair);
        one ^= are_ones(pair);
    }
    Factor { set, one }
}

fn are_ones(pair: &Pair) -> bool
    ensures { result ≡ (pair.now.first.one && pair.now.second.one) }
{
    pair.first.one && pair.second.one
}

fn left_alone(pair: &Pair) -> u64
    ensures { (i : ℕ) → is_in result i ≡ alone_in pair.now i }
{
    pair.first.set & pair.second.set
        ^ (taken(pair.first.one, pair.second.set) ^ taken(pair.second.one, pair.first.set))
}

fn taken(one: bool, set: u64) -> u64
    ensures { (i : ℕ) → is_in result i ≡ (one && is_in set i) }
{
    if one { set } else { 0 }
}
