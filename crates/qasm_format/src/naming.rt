// The places of the lines of a written file.
ghost use Rattle.std.specs.Prelude.{◌≡◌, ◌<◌, ◌≤◌, if◌then◌else◌, ⊤};
ghost use Rattle.std.specs.Fmt.{decimal};
ghost use Rattle.circuit_plans.specs.declared.plan.TheConstants.{MOST_LINES};
ghost use Rattle.qasm_format.specs.Compiled.{register_name};
ghost use Rattle.qasm_format.specs.Converted.{kept_lines};
ghost use Rattle.qasm_format.specs.inside.Naming.{count_of, place_by};
ghost use Rattle.qasm_format.specs.inside.Parts.{digits_in, opened, opened_in, place_text};

use circuit_plans::{Role, Roles};
use revc_io::{Buffer, Decimal, Failed, Piece, Sink};

/// How many lines a file has, and in which registers they stand: by their roles, or by their
/// numbers, the last one in a register of its own where it was added.
#[derive(Clone, Copy)]
pub(crate) enum Naming {
    ByRole(Roles),
    ByNumber { lines: u32, added: bool },
}

/// A name and a number in square brackets, and what stands behind them: the place of a line in its
/// register, or a register and the number of its lines. Bytes that stand together are one text,
/// from the name to the opening bracket, and from the closing one on.
#[derive(Clone, Copy)]
pub(crate) struct Place {
    pub front: &'static [u8],
    pub number: u32,
    pub back: &'static [u8],
}

impl Piece for Place {
    ghost can_put = { λ _. ⊤ };

    ghost bytes = { λ place. place_text place.front.now place.number place.back.now };

    fn put<K: Sink>(self, buffer: &mut Buffer, out: &mut K) -> Result<(), Failed> {
        let digits = Decimal(self.number as u64);
        (self.front, digits, self.back).put(buffer, out)
    }
}

impl Naming {
    /// The place of a line in its register, and what stands behind it.
    pub fn place(self, line: u32, back: &'static [u8]) -> Place
        requires few { count_of self ≤ MOST_LINES }
        requires in_range { line < count_of self }
        ensures front { result.front.now ≡ opened_in (place_by self line) }
        ensures digits { decimal result.number ≡ digits_in (place_by self line) }
        ensures back { result.back.now ≡ back.now }
    {
        match self {
            Naming::ByRole(roles) => {
                let (role, number) = roles.role_and_number(line);
                let front = opened_name(role);
                Place {
                    front,
                    number,
                    back,
                }
            }
            Naming::ByNumber { lines, added } => {
                let kept = kept_lines(lines, added);
                if line < kept {
                    let front = b"q[";
                    Place {
                        front,
                        number: line,
                        back,
                    }
                } else {
                    let front = b"dirty[";
                    Place {
                        front,
                        number: line - kept,
                        back,
                    }
                }
            }
        }
    }
}

/// The name of the register of a role's lines, and an opening bracket.
pub(crate) fn opened_name(role: Role) -> &'static [u8]
    ensures { result.now ≡ opened (register_name role) }
{
    match role {
        Role::Input => b"inp[",
        Role::Output => b"outp[",
        Role::Work => b"work[",
        Role::Borrowed => b"dirty[",
    }
}

/// How many of so many lines were not added.
pub(crate) fn kept_lines(lines: u32, added: bool) -> u32
    requires { 1 ≤ lines }
    ensures { result ≡ kept_lines lines added }
{
    if added { lines - 1 } else { lines }
}

/// How many lines were added.
pub(crate) fn added_lines(added: bool) -> u32
    ensures { result ≡ (if added then 1 else 0) }
{
    u32::from(added)
}
