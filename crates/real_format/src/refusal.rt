// Why a line is refused.
ghost use Rattle.std.specs.Prelude.{◌≡◌};
ghost use Rattle.real_format.specs.declared.refusal.LineRefusal.TheVariants as faults;
ghost use Rattle.real_format.specs.inside.Reading.{fault_at};

use crate::file::RealFault;
use revc_base::{Memory, WantOfMemory};

// The first word of the line that breaks a rule breaks one of form, or passes a limit; or memory
// was refused.
#[derive(Clone, Copy)]
pub enum LineRefusal {
    Form,
    Limit,
    Memory(Memory),
}

impl LineRefusal {
    // The fault of the line with this number.
    pub fn at(self, number: u32) -> RealFault
        ensures { result ≡ fault_at number self }
    {
        match self {
            LineRefusal::Form => RealFault::Line { number },
            LineRefusal::Limit => RealFault::Limit { number },
            LineRefusal::Memory(memory) => RealFault::Memory(memory),
        }
    }
}

impl<M: WantOfMemory> From<M> for LineRefusal {
    ghost from_gives = { λ _ e. e ≡ faults.Memory _ };

    fn from(want: M) -> LineRefusal {
        LineRefusal::Memory(want.memory())
    }
}
