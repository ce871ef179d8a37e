// What arguments stand for.
ghost use Rattle.std.specs.Prelude.{◌≡◌, ℕ, ◌<◌, ◌≤◌, ◌^◌, ◌==◌, true, false, None, IfSome};
ghost use Rattle.std.specs.List.{AllByRecursion, list_any};
ghost use Rattle.circuit_plans.specs.declared.plan.TheConstants.{MOST_LINES};
ghost use Rattle.qasm_format.specs.Registers.{line_at, AreSpread};
ghost use Rattle.qasm_format.specs.inside.Spread.{are_different, shared, shared_size};
ghost use Rattle.qasm_format.specs.inside.Spread.{AreAllDifferent, MeetSomewhere};
ghost use Rattle.qasm_format.specs.inside.Says.{SpotBelow};

use circuit_plans::MOST_LINES;

// One line, or a register with its first line and its size.
#[derive(Clone, Copy)]
pub enum Spot {
    Line(u32),
    Whole(u32, u32),
}

impl Spot {
    // The line of the i-th gate.
    pub fn line_at(self, i: u32) -> u32
        requires below { SpotBelow MOST_LINES self }
        requires few { i ≤ MOST_LINES }
        ensures { result ≡ line_at i self }
    {
        match self {
            Spot::Line(line) => line,
            Spot::Whole(first, _) => first + i,
        }
    }
}

// How many gates the arguments stand for: the size that the registers among them share, or one
// where none is a register.
pub fn count_of(spots: &[Spot]) -> Option<u32>
    ensures some { IfSome result (AreSpread spots.now) }
    ensures none { result ≡ None → (count : ℕ) → ¬ AreSpread spots.now count }
{
    let mut count = None;
    for spot in spots {
        count = shared(count, *spot)?;
    }
    Some(count.unwrap_or(1))
}

// The size that the registers share, with one more argument; nothing where they share none.
fn shared(count: Option<u32>, spot: Spot) -> Option<Option<u32>>
    ensures { result ≡ shared count spot }
{
    match spot {
        Spot::Line(_) => Some(count),
        Spot::Whole(_, size) => shared_size(count, size),
    }
}

fn shared_size(count: Option<u32>, size: u32) -> Option<Option<u32>>
    ensures { result ≡ shared_size count size }
{
    let Some(other) = count else {
        return Some(Some(size));
    };
    if size != other {
        return None;
    }
    Some(Some(size))
}

// Whether no line stands twice in any of the first gates.
pub fn all_different(spots: &[Spot], count: u32) -> bool
    requires below { AllByRecursion (SpotBelow MOST_LINES) spots.now }
    requires few { count ≤ MOST_LINES }
    ensures all { result ≡ true → AreAllDifferent spots.now count }
    ensures meet { result ≡ false → MeetSomewhere spots.now count }
{
    for i in 0..count {
        if !are_different(spots, i) {
            return false;
        }
    }
    true
}

// Whether no line stands twice in the i-th gate.
fn are_different(spots: &[Spot], i: u32) -> bool
    requires below { AllByRecursion (SpotBelow MOST_LINES) spots.now }
    requires few { i ≤ MOST_LINES }
    ensures { result ≡ are_different i spots.now }
{
    let Some((first, behind)) = spots.split_first() else {
        return true;
    };
    !has_line(behind, i, first.line_at(i)) && are_different(behind, i)
}

// Whether a line stands in the i-th gate.
fn has_line(spots: &[Spot], i: u32, line: u32) -> bool
    requires below { AllByRecursion (SpotBelow MOST_LINES) spots.now }
    requires few { i ≤ MOST_LINES }
    ensures { result ≡ list_any (λ spot. line_at i spot == line) spots.now }
{
    for spot in spots {
        if spot.line_at(i) == line {
            return true;
        }
    }
    false
}
