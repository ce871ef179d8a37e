// The top call: all that the program does.
ghost use Rattle.std.specs.Prelude.{◌≡◌, ◌<◌, IfOk, IfErr};
ghost use Rattle.revc_driver.specs.Commands.{most_bytes};
ghost use Rattle.revc_driver.specs.Top.{Answers, device, run_of, source_device};
ghost use Rattle.revc_driver.specs.inside.Ends.{Ends, IsReadFrom, IsUnreadFor};
ghost use Rattle.revc_driver.specs.inside.Mappings.{reading_fault, words_fault};
ghost use Rattle.revc_words.specs.Words.{words_of};

use crate::commands::{limit_of, prepare};
use command_answers::{Fault, TextLimit, report};
use revc_io::{ReadFault, Sink, Source, read_up_to};
use revc_words::{WordsFault, read_words};
use std::alloc::Global;

/// Does what the words of the command line ask for, without the program's own name, and answers the
/// status: what each command reads and writes, `revc_words::Command` says. Whatever the words, it
/// writes to `out` at status 0 and 10 alone, and one line to `err` at each other status. The fields
/// of `Answers` say what each status promises.
pub fn revc<S: Source, K: Sink, E: Sink>(
    alloc: Global,
    words: &[String],
    source: &mut S,
    out: &mut K,
    err: &mut E,
) -> u8
    ensures { Answers
        (run_of (words_of words.now) (source_device S.rest S.faults source.old source.new)
        (device K.held K.faults out.old out.new))
        (device E.held E.faults err.old err.new) result }
{
    match run(alloc, words, source, out) {
        Ok(()) => 0,
        Err(fault) => {
            report(err, &fault);
            fault.status()
        }
    }
}

fn run<S: Source, K: Sink>(
    alloc: Global,
    words: &[String],
    source: &mut S,
    out: &mut K,
) -> Result<(), Fault>
    ensures { Ends
        (run_of (words_of words.now) (source_device S.rest S.faults source.old source.new)
        (device K.held K.faults out.old out.new)) result }
{
    let order = match read_words(alloc, words) {
        Ok(order) => order,
        Err(fault) => return Err(words_fault(fault)),
    };
    let text = read_text(alloc, limit_of(order.command), source)?;
    let prepared = prepare(alloc, &order, text)?;
    match prepared.write(out) {
        Ok(()) => Ok(()),
        Err(_) => Err(Fault::Write),
    }
}

// The text of the source, read to its end, within the limit; or none where there is no limit.
fn read_text<S: Source>(
    alloc: Global,
    limit: Option<TextLimit>,
    source: &mut S,
) -> Result<Vec<u8>, Fault>
    requires { most_bytes limit < usize.MAX }
    ensures ok { IfOk result (λ text. IsReadFrom limit
        (source_device S.rest S.faults source.old source.new) text.items) }
    ensures err { IfErr result (IsUnreadFor limit
        (source_device S.rest S.faults source.old source.new)) }
{
    let Some(limit) = limit else {
        return Ok(Vec::new(alloc));
    };
    match read_up_to(alloc, source, limit.bytes) {
        Ok(text) => Ok(text),
        Err(fault) => Err(reading_fault(limit, fault)),
    }
}

fn reading_fault(limit: TextLimit, fault: ReadFault) -> Fault
    ensures { result ≡ reading_fault limit fault }
{
    match fault {
        ReadFault::Failed => Fault::Read,
        ReadFault::TooLong => limit.fault,
        ReadFault::Memory(memory) => Fault::Memory(memory),
    }
}

fn words_fault(fault: WordsFault) -> Fault
    ensures { result ≡ words_fault fault }
{
    match fault {
        WordsFault::Usage => Fault::Usage,
        WordsFault::Memory(memory) => Fault::Memory(memory),
    }
}
