// Why a program text leaves no tape.
ghost use Rattle.program_texts.specs.inside.Stages.{OfLexer, OfParser, OfRun, OfScope, OfText};

use command_answers::{Fault, FaultKind, Refusal};
use name_scope::ScopeFault;
use revc_base::{Memory, Place};
use revs_lexer::LexFault;
use revs_parser::ParseFault;
use revs_run::RunFault;

// Why a text leaves no tape.
#[derive(Clone, Copy, Debug)]
pub enum TextFault {
    // It is refused at this place.
    Refused(FaultKind, Place),
    // Want of memory.
    Memory(Memory),
}

impl From<LexFault> for TextFault {
    ghost from_gives = { OfLexer };

    fn from(fault: LexFault) -> TextFault {
        match fault {
            LexFault::BadByte(at) => TextFault::Refused(FaultKind::BadByte, at),
            LexFault::LongName(at) => TextFault::Refused(FaultKind::LongName, at),
            LexFault::LongNumber(at) => TextFault::Refused(FaultKind::LongNumber, at),
            LexFault::Memory(memory) => TextFault::Memory(memory),
        }
    }
}

impl From<ParseFault> for TextFault {
    ghost from_gives = { OfParser };

    fn from(fault: ParseFault) -> TextFault {
        match fault {
            ParseFault::Syntax { at, .. } => TextFault::Refused(FaultKind::Syntax, at),
            ParseFault::Nesting(at) => TextFault::Refused(FaultKind::Nesting, at),
            ParseFault::Inputs(at) => TextFault::Refused(FaultKind::Inputs, at),
            ParseFault::Memory(memory) => TextFault::Memory(memory),
        }
    }
}

impl From<ScopeFault> for TextFault {
    ghost from_gives = { OfScope };

    fn from(fault: ScopeFault) -> TextFault {
        match fault {
            ScopeFault::Unbound(at) => TextFault::Refused(FaultKind::Unbound, at),
            ScopeFault::TwoParams(at) => TextFault::Refused(FaultKind::TwoParams, at),
            ScopeFault::Memory(memory) => TextFault::Memory(memory),
        }
    }
}

impl From<RunFault> for TextFault {
    ghost from_gives = { OfRun };

    fn from(fault: RunFault) -> TextFault {
        match fault {
            RunFault::Stuck { cause, at } => TextFault::Refused(FaultKind::Stuck(cause), at),
            RunFault::Memory(memory) => TextFault::Memory(memory),
        }
    }
}

impl From<TextFault> for Fault {
    ghost from_gives = { OfText };

    fn from(fault: TextFault) -> Fault {
        match fault {
            TextFault::Refused(kind, at) => Fault::Refused(Refusal::At(kind, at)),
            TextFault::Memory(memory) => Fault::Memory(memory),
        }
    }
}
