// Why a run is stuck.
ghost use Rattle.std.specs.Prelude.{◌≡◌};
ghost use Rattle.revs_terms.specs.Causes.{cause_word};

/// Why the run of a program is stuck at a place.
#[derive(Clone, Copy, Debug, PartialEq, Eq)]
pub enum Cause {
    /// The value must be a bit.
    NotBit,
    /// The value must be a register.
    NotRegister,
    /// The value must be a function.
    NotFunction,
    /// An index is negative, or not below the register's length.
    Index,
    /// The places of a slice are negative, not in order, or past the end.
    Slice,
    /// The number of a rotation is negative, or not below the register's length.
    Rotate,
    /// A register would have more than 4,096 places.
    Length,
    /// The location was cleaned.
    Gone,
    /// The program's value is neither a bit nor a register.
    NoOutput,
    /// A term or a `for` would be run at a depth above 400.
    Depth,
    /// The work would pass 16,777,216.
    Work,
    /// There would be more than 262,144 writes.
    Writes,
    /// There would be more than 4,096 claims.
    Claims,
    /// The program has more than 1,024 outputs.
    Outputs,
    /// A number would be above 9,999 or below -9,999.
    Range,
    /// The value must be a number.
    NotNumber,
}

impl Cause {
    /// The word for the cause in a message.
    pub fn word(self) -> &'static [u8]
        ensures { result.now ≡ cause_word self }
    {
        match self {
            Cause::NotBit => b"NotBit",
            Cause::NotRegister => b"NotRegister",
            Cause::NotFunction => b"NotFunction",
            Cause::Index => b"Index",
            Cause::Slice => b"Slice",
            Cause::Rotate => b"Rotate",
            Cause::Length => b"Length",
            Cause::Gone => b"Gone",
            Cause::NoOutput => b"NoOutput",
            Cause::Depth => b"Depth",
            Cause::Work => b"Work",
            Cause::Writes => b"Writes",
            Cause::Claims => b"Claims",
            Cause::Outputs => b"Outputs",
            Cause::Range => b"Range",
            Cause::NotNumber => b"NotNumber",
        }
    }
}
