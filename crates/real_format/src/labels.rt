// What a written file says of its lines.
ghost use Rattle.std.specs.Prelude.{◌≡◌, ◌<◌, ◌≤◌, ◌∷◌, length, slice_get, Some};
ghost use Rattle.std.specs.Fmt.{decimal};
ghost use Rattle.circuit_plans.specs.declared.plan.TheConstants.{MOST_LINES};
ghost use Rattle.real_format.specs.Header.{constant_byte, garbage_byte};
ghost use Rattle.real_format.specs.Compiled.{letter_of};
ghost use Rattle.real_format.specs.inside.Labels.{count_of, name_by, constants_by, garbage_by};
ghost use Rattle.real_format.specs.inside.Labels.{mark_bytes, start_of};

use crate::file::Mark;
use circuit_plans::{Role, Roles};

/// The names and marks of a file's lines: by their roles; or by their numbers, with these marks.
#[derive(Clone, Copy)]
pub(crate) enum Labels<'a> {
    ByRole(Roles),
    ByNumber {
        constants: &'a [Mark],
        garbage: &'a [bool],
    },
}

/// The kinds of marks: with which bit a line starts, and whether its last bit is of no use.
#[derive(Clone, Copy)]
pub(crate) enum MarkKind {
    Constants,
    Garbage,
}

impl Labels<'_> {
    /// The number of lines.
    pub fn lines(self) -> u32
        requires { count_of self ≤ MOST_LINES }
        ensures { result ≡ count_of self.entry }
    {
        match self {
            Labels::ByRole(roles) => roles.lines(),
            Labels::ByNumber { constants, .. } => constants.len() as u32,
        }
    }

    /// The letter with which the name of a line begins, and the number behind it.
    pub fn letter_and_number(self, line: u32) -> (u8, u32)
        requires few { count_of self ≤ MOST_LINES }
        requires in_range { line < count_of self }
        ensures { name_by self.entry line ≡ result.0 ∷ decimal result.1 }
    {
        match self {
            Labels::ByRole(roles) => {
                let (role, number) = roles.role_and_number(line);
                (letter_of(role), number)
            }
            Labels::ByNumber { .. } => (b'l', line),
        }
    }

    /// The byte that stands for a line's mark.
    pub fn byte(self, kind: MarkKind, line: u32) -> u8
        requires few { count_of self ≤ MOST_LINES }
        requires fit { length (garbage_by self) ≡ count_of self }
        requires in_range { line < count_of self }
        ensures { slice_get (mark_bytes self.entry kind) line ≡ Some result }
    {
        match kind {
            MarkKind::Constants => constant_byte(self.constant(line)),
            MarkKind::Garbage => garbage_byte(self.garbage(line)),
        }
    }

    // With which bit a line starts.
    fn constant(self, line: u32) -> Mark
        requires few { count_of self ≤ MOST_LINES }
        requires in_range { line < count_of self }
        ensures { slice_get (constants_by self.entry) line ≡ Some result }
    {
        match self {
            Labels::ByRole(roles) => start_of(roles.role_and_number(line).0),
            Labels::ByNumber { constants, .. } => constants[line as usize],
        }
    }

    // Whether the last bit of a line is of no use.
    fn garbage(self, line: u32) -> bool
        requires fit { length (garbage_by self) ≡ count_of self }
        requires in_range { line < count_of self }
        ensures { slice_get (garbage_by self.entry) line ≡ Some result }
    {
        match self {
            Labels::ByRole(_) => false,
            Labels::ByNumber { garbage, .. } => garbage[line as usize],
        }
    }
}

// The letter with which the names of a role's lines begin.
fn letter_of(role: Role) -> u8
    ensures { result ≡ letter_of role }
{
    match role {
        Role::Input => b'x',
        Role::Output => b'y',
        Role::Work => b'w',
        Role::Borrowed => b'b',
    }
}

// Output and work lines start at 0, input and borrowed lines hold anything.
fn start_of(role: Role) -> Mark
    ensures { result ≡ start_of role }
{
    match role {
        Role::Input => Mark::Free,
        Role::Output => Mark::Zero,
        Role::Work => Mark::Zero,
        Role::Borrowed => Mark::Free,
    }
}

fn constant_byte(mark: Mark) -> u8
    ensures { result ≡ constant_byte mark }
{
    match mark {
        Mark::Free => b'-',
        Mark::Zero => b'0',
        Mark::One => b'1',
    }
}

fn garbage_byte(mark: bool) -> u8
    ensures { result ≡ garbage_byte mark }
{
    if mark { b'1' } else { b'-' }
}
