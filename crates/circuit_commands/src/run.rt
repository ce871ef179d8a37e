// `run`: the bits that a circuit gives on the bits of each word.
ghost use Rattle.std.specs.Prelude.{◌≡◌, ◌≤◌, [], ◌∷◌, ◌++◌, cond, drop, length, map, IfOk, IfErr};
ghost use Rattle.std.specs.Prelude.{MatchOption, OnOk};
ghost use Rattle.std.specs.List.{flat_map};
ghost use Rattle.circuit_sim.specs.Rows.{AreRows, contents};
ghost use Rattle.revc_words.specs.Words.{words_of};
ghost use Rattle.circuit_commands.specs.declared.limits.TheConstants.{MOST_CIRCUIT_BYTES};
ghost use Rattle.command_answers.specs.Outcomes.{HasOneOutcome};
ghost use Rattle.command_answers.specs.BitWords.{bits_of};
ghost use Rattle.command_answers.specs.Lines.{bits_text};
ghost use Rattle.circuit_commands.specs.Run.{AreInputs, IsFirstUnfit, IsRun, free_lines, promise};
ghost use Rattle.circuit_commands.specs.Run.{is_free, kept, runs_text, started};
ghost use Rattle.circuit_commands.specs.Outcomes.{IsRunFault, IsWordsFault};
ghost use Rattle.circuit_commands.specs.inside.Started.{first_bit};

use crate::circuit::{MarkedCircuit, read_circuit};
use circuit_sim::run_all;
use command_answers::{Fault, is_input_word};
use real_format::Mark;
use revc_base::{Bits, Memory};
use revc_words::Format;
use std::alloc::Global;

/// What `run` gives, its causes and where it serves exclude one another, and it has one cause at
/// most.
pub fn one_outcome()
    ensures { HasOneOutcome promise }
{}

/// The bits that the circuit of a text gives on the bits of each word: these are the first bits of
/// the lines that are free, and the last bits of the lines that are of use are given. A fault is
/// exactly the text's or a word's, or want of memory.
pub fn run(alloc: Global, text: &[u8], from: Format, words: &[String]) -> Result<Vec<Bits>, Fault>
    requires { length text.now ≤ MOST_CIRCUIT_BYTES }
    ensures ok { IfOk result (λ lines. IsRun from (words_of words.now) text.now
        (flat_map bits_text lines.items)) }
    ensures err { IfErr result (IsRunFault from (words_of words.now) text.now) }
{
    let source = read_circuit(alloc, text, from)?;
    run_source(alloc, &source, words)
}

// The bits that a circuit gives on the bits of each word, where each is an input of the circuit.
fn run_source(alloc: Global, source: &MarkedCircuit, words: &[String]) -> Result<Vec<Bits>, Fault>
    ensures fit { OnOk result (AreInputs source.now (words_of words.now)) }
    ensures ok { IfOk result (λ lines. flat_map bits_text lines.items
        ≡ runs_text source.now (words_of words.now)) }
    ensures err { IfErr result (IsWordsFault source.now (words_of words.now)) }
{
    match first_unfit(source, words) {
        Some(word) => Err(Fault::BadBits { word }),
        None => Ok(run_words(alloc, source, words)?),
    }
}

// The number of the first word, counted from 1, that has not a digit for each free line.
fn first_unfit(source: &MarkedCircuit, words: &[String]) -> Option<usize>
    ensures { MatchOption result (AreInputs source.now (words_of words.now))
        (IsFirstUnfit source.now (words_of words.now)) }
{
    let inputs = free_lines(source.constants());
    for (place, word) in words.iter().enumerate() {
        if !is_input_word(word.as_str(), inputs) {
            return Some(place + 1);
        }
    }
    None
}

// How many lines start with a bit of a word.
fn free_lines(marks: &[Mark]) -> usize
    ensures { result ≡ free_lines marks.now }
{
    marks.iter().filter(|mark| is_free(**mark)).count()
}

// Whether a line of this mark starts with a bit of a word.
fn is_free(mark: Mark) -> bool
    ensures { result ≡ is_free mark }
{
    match mark {
        Mark::Free => true,
        Mark::Zero | Mark::One => false,
    }
}

// The bits that a circuit gives on the bits of each word.
fn run_words(alloc: Global, source: &MarkedCircuit, words: &[String]) -> Result<Vec<Bits>, Memory>
    ensures { IfOk result (λ lines. flat_map bits_text lines.items
        ≡ runs_text source.now (words_of words.now)) }
{
    let mut rows = start_all(alloc, source.constants(), words)?;
    run_all(alloc, source.circuit(), &mut rows)?;
    keep_all(alloc, source.garbage(), &rows)
}

// The bits with which the lines start on each word.
fn start_all(alloc: Global, marks: &[Mark], words: &[String]) -> Result<Vec<Vec<bool>>, Memory>
    ensures rows { IfOk result (λ rows. contents rows.items
        ≡ map (λ word. started marks.now (bits_of word)) (words_of words.now)) }
    ensures fit { IfOk result (λ rows. AreRows (length marks.now) rows.items) }
{
    let mut rows = Vec::new(alloc);
    for word in words {
        rows.push(start(alloc, marks, word.as_str())?)?;
    }
    Ok(rows)
}

// The bits with which the lines start on a word.
fn start(alloc: Global, marks: &[Mark], word: &str) -> Result<Vec<bool>, Memory>
    ensures { IfOk result (λ lines. lines.items ≡ started marks.now (bits_of word.now)) }
{
    let digits = word.as_bytes();
    let mut lines = Vec::new(alloc);
    let mut next = 0;
    for mark in marks {
        lines.push(first_bit(*mark, digits, next))?;
        next += usize::from(is_free(*mark));
    }
    Ok(lines)
}

// The bit with which a line of this mark starts, where a free line has the digit at this place.
fn first_bit(mark: Mark, digits: &[u8], place: usize) -> bool
    ensures { result ≡ first_bit mark (drop place (bits_of digits.now)) }
{
    match mark {
        Mark::Zero => false,
        Mark::One => true,
        Mark::Free => match digits.get(place) {
            Some(digit) => *digit == b'1',
            None => false,
        },
    }
}

// The bits of the lines that are of use, for each row.
fn keep_all(alloc: Global, garbage: &[bool], rows: &[Vec<bool>]) -> Result<Vec<Bits>, Memory>
    requires { AreRows (length garbage.now) rows.now }
    ensures { IfOk result (λ lines. lines.items ≡ map (kept garbage.now) (contents rows.now)) }
{
    let mut lines = Vec::new(alloc);
    for row in rows {
        lines.push(Bits::new(keep(alloc, garbage, row)?))?;
    }
    Ok(lines)
}

// The bits of the lines that are of use.
fn keep(alloc: Global, garbage: &[bool], lines: &[bool]) -> Result<Vec<bool>, Memory>
    requires { length lines.now ≡ length garbage.now }
    ensures { IfOk result (λ bits. bits.items ≡ kept garbage.now lines.now) }
{
    let mut bits = Vec::new(alloc);
    for (line, bit) in lines.iter().enumerate() {
        keep_one(&mut bits, garbage[line], *bit)?;
    }
    Ok(bits)
}

// Appends a bit that is of use.
fn keep_one(bits: &mut Vec<bool>, useless: bool, bit: bool) -> Result<(), Memory>
    ensures { OnOk result (bits.new.items ≡ bits.old.items ++ cond useless [] (bit ∷ [])) }
{
    if useless {
        return Ok(());
    }
    bits.push(bit)?;
    Ok(())
}
