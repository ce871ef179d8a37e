// The header of a `.real` text.
ghost use Rattle.std.specs.Prelude.{◌≡◌, ◌≢◌, ℕ, ◌+◌, ◌<◌, ◌≤◌, List, [], ◌∷◌, length};
ghost use Rattle.std.specs.Prelude.{Option, Some, None, Ok, Err, OnOk, IfOk, IfErr, IsErrOf};
ghost use Rattle.std.specs.Prelude.{IsSome};
ghost use Rattle.std.specs.Prelude.{true, false, replicate, unwrap_or};
ghost use Rattle.std.specs.Option.{is_some, option_map};
ghost use Rattle.std.specs.List.{find};
ghost use Rattle.std.specs.Str.{bytes_eq};
ghost use Rattle.real_format.specs.Header.{HeaderView, IsName, nothing_said, spelling_of};
ghost use Rattle.real_format.specs.inside.Reading.{Refuses, header_line, file_of, add, garbage_of};
ghost use Rattle.real_format.specs.inside.Reading.{add_version, add_lines, add_names, AddsMarks};
ghost use Rattle.real_format.specs.inside.Reading.{is_version, count_of, names_from, constant_of};
ghost use Rattle.real_format.specs.inside.Reading.{more_names, new_marks, marks_of, marks_from};
ghost use Rattle.real_format.specs.inside.Says.{HeaderSays, BeginsAs};
ghost use Rattle.real_format.specs.Real.{RealView};

use crate::file::{Mark, RealFault};
use crate::refusal::LineRefusal;
use crate::words::{Words, begins_name, number};
use circuit_plans::MOST_LINES;
use format_parts::Names;
use revc_base::limits::MOST_NAME_BYTES;
use std::alloc::{AllocError, Global};
use std::marker::Model;

/// The kinds of lines of a header, each by its first word.
#[derive(Clone, Copy)]
pub enum Head {
    Version,
    Lines,
    Names,
    Inputs,
    Outputs,
    InputBus,
    OutputBus,
    Constants,
    Garbage,
}

impl Head {
    // All kinds.
    const ALL: [Head; 9] = [
        Head::Version,
        Head::Lines,
        Head::Names,
        Head::Inputs,
        Head::Outputs,
        Head::InputBus,
        Head::OutputBus,
        Head::Constants,
        Head::Garbage,
    ];

    // The first word of such a line.
    fn spelling(&self) -> &'static [u8]
        ensures { result.now ≡ spelling_of self.now }
    {
        match self {
            Head::Version => b".version",
            Head::Lines => b".numvars",
            Head::Names => b".variables",
            Head::Inputs => b".inputs",
            Head::Outputs => b".outputs",
            Head::InputBus => b".inputbus",
            Head::OutputBus => b".outputbus",
            Head::Constants => b".constants",
            Head::Garbage => b".garbage",
        }
    }

    // The kind of a line that begins with this word.
    pub fn of(word: &[u8]) -> Option<Head>
        ensures { result ≡ find (λ head. bytes_eq (spelling_of head) word.now) Head.ALL }
    {
        Head::ALL
            .iter()
            .copied()
            .find(|head| head.spelling() == word)
    }
}

// What the lines of a header said so far.
#[derive(Drop)]
pub struct Header<'t> {
    version: bool,
    inputs: bool,
    outputs: bool,
    lines: Option<u32>,
    names: Option<Names<'t>>,
    constants: Option<Vec<Mark>>,
    garbage: Option<Vec<bool>>,
}

impl<'t> Model for Header<'t> {
    ghost Value = { HeaderView };

    ghost view = { λ h. record {
      version = h.version;
      inputs = h.inputs;
      outputs = h.outputs;
      lines = h.lines;
      names = h.names;
      constants = option_map (λ v. v.items) h.constants;
      garbage = option_map (λ v. v.items) h.garbage;
    } };
}

// What a header says of a file. Contracts see the file without its gates.
#[derive(Drop)]
pub struct Begun<'t> {
    pub names: Names<'t>,
    pub constants: Vec<Mark>,
    pub garbage: Vec<bool>,
}

impl<'t> Model for Begun<'t> {
    ghost Value = { RealView };

    ghost view = { λ b. record {
      names = b.names;
      constants = b.constants.items;
      garbage = b.garbage.items;
      gates = [];
    } };
}

impl<'t> Header<'t> {
    pub fn new() -> Header<'t>
        ensures { result ≡ nothing_said }
    {
        Header {
            version: false,
            inputs: false,
            outputs: false,
            lines: None,
            names: None,
            constants: None,
            garbage: None,
        }
    }

    // A line of the header, and whether it is the one that ends it.
    pub fn read_line(&mut self, alloc: Global, words: &mut Words<'t>) -> Result<bool, LineRefusal>
        ensures ok { IfOk result (λ ends.
            HeaderSays ends (header_line self.old words.old) self.old self.new) }
        ensures err { IfErr result (Refuses (header_line self.old words.old)) }
    {
        let Some(word) = words.next() else {
            return Ok(false);
        };
        if let Some(head) = Head::of(word) {
            self.add(alloc, head, words)?;
            return Ok(false);
        }
        if word == b".begin".as_slice() && words.is_done() && self.names.is_some() {
            return Ok(true);
        }
        Err(LineRefusal::Form)
    }

    // The file of the header; marks that are absent are all `-`.
    pub fn begin(self, alloc: Global) -> Result<Begun<'t>, RealFault>
        requires { IsSome self.names }
        ensures ok { IfOk result (BeginsAs self.entry) }
        ensures err { IfErr result (λ fault. fault ≡ RealFault.Memory _) }
    {
        let Header {
            names,
            constants,
            garbage,
            ..
        } = self;
        let Some(names) = names else {
            unreachable!();
        };
        let (constants, garbage) = all_marks(alloc, constants, garbage, names.len())?;
        Ok(Begun {
            names,
            constants,
            garbage,
        })
    }

    // The words behind the first one of a line of this kind.
    pub fn add(
        &mut self,
        alloc: Global,
        head: Head,
        words: &mut Words<'t>,
    ) -> Result<(), LineRefusal>
        ensures ok { OnOk result (add head self.old words.old ≡ Ok self.new) }
        ensures err { IfErr result (Refuses (add head self.old words.old)) }
    {
        let lines = self.lines;
        match head {
            Head::Version => self.add_version(words),
            Head::Lines => self.add_lines(words),
            Head::Names => self.add_names(alloc, words),
            Head::Inputs => say_once(&mut self.inputs),
            Head::Outputs => say_once(&mut self.outputs),
            Head::InputBus => Ok(()),
            Head::OutputBus => Ok(()),
            Head::Constants => add_marks(alloc, &mut self.constants, lines, words),
            Head::Garbage => add_marks(alloc, &mut self.garbage, lines, words),
        }
    }

    fn add_version(&mut self, words: &mut Words<'t>) -> Result<(), LineRefusal>
        ensures ok { OnOk result (add_version self.old words.old ≡ Ok self.new) }
        ensures err { IfErr result (Refuses (add_version self.old words.old)) }
        ensures exact { ¬ IsErrOf result (LineRefusal.Memory _) }
    {
        if self.version {
            return Err(LineRefusal::Form);
        }
        let Some(word) = words.only() else {
            return Err(LineRefusal::Form);
        };
        if !is_version(word) {
            return Err(LineRefusal::Form);
        }
        self.version = true;
        Ok(())
    }

    fn add_lines(&mut self, words: &mut Words<'t>) -> Result<(), LineRefusal>
        ensures ok { OnOk result (add_lines self.old words.old ≡ Ok self.new) }
        ensures err { IfErr result (Refuses (add_lines self.old words.old)) }
        ensures exact { ¬ IsErrOf result (LineRefusal.Memory _) }
    {
        if self.lines.is_some() {
            return Err(LineRefusal::Form);
        }
        self.lines = Some(count_of(words)?);
        Ok(())
    }

    fn add_names(&mut self, alloc: Global, words: &mut Words<'t>) -> Result<(), LineRefusal>
        ensures ok { OnOk result (add_names self.old words.old ≡ Ok self.new) }
        ensures err { IfErr result (Refuses (add_names self.old words.old)) }
    {
        if self.names.is_some() {
            return Err(LineRefusal::Form);
        }
        let Some(lines) = self.lines else {
            return Err(LineRefusal::Form);
        };
        let names = self.names.get_or_insert(Names::new(alloc));
        add_names(names, lines, words)
    }
}

// What may be said once.
fn say_once(said: &mut bool) -> Result<(), LineRefusal>
    ensures ok { OnOk result ((said.old ≡ false) × (said.new ≡ true)) }
    ensures err { IfErr result (λ refusal. (refusal ≡ LineRefusal.Form) × (said.old ≡ true)) }
{
    if *said {
        return Err(LineRefusal::Form);
    }
    *said = true;
    Ok(())
}

fn is_version(word: &[u8]) -> bool
    ensures { result ≡ is_version word.now }
{
    word == b"1.0".as_slice() || word == b"2.0".as_slice()
}

// The number of lines: the one word that is left.
fn count_of(words: &mut Words) -> Result<u32, LineRefusal>
    ensures ok { IfOk result (λ count. count_of words.old ≡ Ok count) }
    ensures few { IfOk result (λ count. count ≤ MOST_LINES) }
    ensures err { IfErr result (Refuses (count_of words.old)) }
    ensures exact { ¬ IsErrOf result (LineRefusal.Memory _) }
{
    let Some(word) = words.next() else {
        return Err(LineRefusal::Form);
    };
    let Some(count) = number(word, MOST_LINES) else {
        return Err(LineRefusal::Form);
    };
    if count == 0 {
        return Err(LineRefusal::Form);
    }
    if count > MOST_LINES {
        return Err(LineRefusal::Limit);
    }
    if !words.is_done() {
        return Err(LineRefusal::Form);
    }
    Ok(count)
}

// Puts all words that are left behind the names, which are then so many.
fn add_names<'t>(
    names: &mut Names<'t>,
    count: u32,
    words: &mut Words<'t>,
) -> Result<(), LineRefusal>
    ensures ok { OnOk result (names_from count names.old words.old ≡ Ok names.new) }
    ensures err { IfErr result (Refuses (names_from count names.old words.old)) }
{
    while let Some(word) = words.next() {
        if names.len() == count as usize {
            return Err(LineRefusal::Form);
        }
        add_name(names, word)?;
    }
    if names.len() != count as usize {
        return Err(LineRefusal::Form);
    }
    Ok(())
}

fn add_name<'t>(names: &mut Names<'t>, word: &'t [u8]) -> Result<(), LineRefusal>
    ensures ok { OnOk result (more_names names.old word.now ≡ Ok names.new) }
    ensures err { IfErr result (Refuses (more_names names.old word.now)) }
    ensures memory { IsErrOf result (LineRefusal.Memory _) → IsName word.now }
{
    if !begins_name(word) {
        return Err(LineRefusal::Form);
    }
    if word.len() > MOST_NAME_BYTES {
        return Err(LineRefusal::Limit);
    }
    if !names.push(word)? {
        return Err(LineRefusal::Form);
    }
    Ok(())
}

// A mark of a line, which a byte stands for.
trait Marking: Copy {
    // The mark of each byte that stands for one.
    ghost marking: { ℕ → Option Self };

    fn of(byte: u8) -> Option<Self>
        ensures { result ≡ marking byte };
}

impl Marking for Mark {
    ghost marking = { constant_of };

    fn of(byte: u8) -> Option<Mark> {
        match byte {
            b'-' => Some(Mark::Free),
            b'0' => Some(Mark::Zero),
            b'1' => Some(Mark::One),
            _ => None,
        }
    }
}

impl Marking for bool {
    ghost marking = { garbage_of };

    fn of(byte: u8) -> Option<bool> {
        match byte {
            b'-' => Some(false),
            b'1' => Some(true),
            _ => None,
        }
    }
}

// The marks of all lines, once, and behind the number of lines.
fn add_marks<M: Marking>(
    alloc: Global,
    marks: &mut Option<Vec<M>>,
    lines: Option<u32>,
    words: &mut Words,
) -> Result<(), LineRefusal>
    ensures ok { OnOk result (AddsMarks (new_marks M.marking (is_some marks.old) lines words.old)
        (option_map (λ v. v.items) marks.new)) }
    ensures err { IfErr result
        (Refuses (new_marks M.marking (is_some marks.old) lines words.old)) }
{
    if marks.is_some() {
        return Err(LineRefusal::Form);
    }
    let Some(count) = lines else {
        return Err(LineRefusal::Form);
    };
    *marks = Some(marks_of(alloc, count, words)?);
    Ok(())
}

// So many marks: the one word that is left.
fn marks_of<M: Marking>(alloc: Global, count: u32, words: &mut Words) -> Result<Vec<M>, LineRefusal>
    ensures ok { IfOk result (λ marks. marks_of M.marking count words.old ≡ Ok marks.items) }
    ensures err { IfErr result (Refuses (marks_of M.marking count words.old)) }
{
    let Some(word) = words.only() else {
        return Err(LineRefusal::Form);
    };
    if word.len() != count as usize {
        return Err(LineRefusal::Form);
    }
    let mut marks = Vec::with_capacity(alloc, word.len())?;
    for byte in word {
        let Some(mark) = M::of(*byte) else {
            return Err(LineRefusal::Form);
        };
        marks.push(mark)?;
    }
    Ok(marks)
}

// The marks of so many lines: those that were said, else all `-`.
fn all_marks(
    alloc: Global,
    constants: Option<Vec<Mark>>,
    garbage: Option<Vec<bool>>,
    count: usize,
) -> Result<(Vec<Mark>, Vec<bool>), AllocError>
    ensures constants { IfOk result (λ marks. marks.0.items
        ≡ unwrap_or (option_map (λ v. v.items) constants) (replicate count Mark.Free)) }
    ensures garbage { IfOk result (λ marks. marks.1.items
        ≡ unwrap_or (option_map (λ v. v.items) garbage) (replicate count false)) }
{
    let constants = match constants {
        Some(marks) => marks,
        None => vec![in alloc; Mark::Free; count]?,
    };
    let garbage = match garbage {
        Some(marks) => marks,
        None => vec![in alloc; false; count]?,
    };
    Ok((constants, garbage))
}
