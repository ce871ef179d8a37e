// Why the reading stops.

ghost use Rattle.std.specs.Prelude.{◌≡◌, Ok, Err, MatchResult};
ghost use Rattle.revs_parser.specs.declared.stop.Stop.TheVariants as faults;
ghost use Rattle.revs_parser.specs.inside.Reading.{Puts, Lacks};

use revc_base::{Memory, WantOfMemory};

// Why the reading stops, with the number of tokens that are left then; the refused token is the
// first of them.
#[derive(Clone, Copy)]
pub enum Stop {
    Syntax(usize),
    Nesting(usize),
    Memory(Memory),
}

impl<M: WantOfMemory> From<M> for Stop {
    ghost from_gives = { λ _ e. e ≡ faults.Memory _ };

    fn from(want: M) -> Stop {
        Stop::Memory(want.memory())
    }
}

/// Both, where the second was made. The first needs no exit of its own in the caller, which would
/// take it apart there.
pub fn both<T: Drop, R, E>(first: T, second: Result<R, E>) -> Result<(T, R), E>
    ensures { MatchResult result (λ made. (made.0 ≡ first) × (second ≡ Ok made.1))
        (λ fault. second ≡ Err fault) }
{
    match second {
        Ok(second) => Ok((first, second)),
        Err(fault) => Err(fault),
    }
}

/// Puts what was read behind the others.
pub fn put<T: Drop, R: Drop>(all: &mut Vec<T>, read: Result<(T, R), Stop>) -> Result<R, Stop>
    ensures { MatchResult result (λ rest. Puts all.old.items all.new.items read rest)
        (λ stop. Lacks read stop) }
{
    let (next, rest) = read?;
    all.push(next)?;
    Ok(rest)
}

/// Puts what was read behind the others. The first takes room for itself alone, as most stand
/// alone.
pub fn put_alone<T: Drop, R: Drop>(all: &mut Vec<T>, read: Result<(T, R), Stop>) -> Result<R, Stop>
    ensures { MatchResult result (λ rest. Puts all.old.items all.new.items read rest)
        (λ stop. Lacks read stop) }
{
    let (next, rest) = read?;
    if all.is_empty() {
        all.reserve_exact(1)?;
    }
    all.push(next)?;
    Ok(rest)
}
