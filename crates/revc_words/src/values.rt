// The values of options, and the texts that give them.
ghost use Rattle.std.specs.Prelude.{◌≡◌, ℕ, List, Option};
ghost use Rattle.clap.specs.Words.{first_of, found_of, rows_of};
ghost use Rattle.revc_words.specs.Commands.{factor_option, way_option};
ghost use Rattle.revc_words.specs.inside.Parsing.{in_place_of, kind_of, number_of, placing_for};
ghost use Rattle.revc_words.specs.inside.Parsing.{plan_of, text_at, texts_in, value_or, values_of};
ghost use Rattle.revc_words.specs.inside.Parsing.{aim_of, format_of, placing_of, way_of, write_of};

use crate::{Aim, Command, Format, MOST_ASSUMED, MOST_DIGITS, MOST_NODES, Values, Way, Write};
use arith_templates::{Kind, MOST_FACTOR};
use circuit_plans::{MOST_BORROWED, MOST_GATES, MOST_LINES, Placing, Plan, Start};
use clap::ArgMatches;

/// The values of the texts that are given to a command: what has no text has its usual value.
pub fn values_given(command: Command, matches: &ArgMatches) -> Option<Values>
    ensures { result
        ≡ values_of command (texts_in command (rows_of (found_of matches.now))) }
{
    let usual = Values::USUAL;
    let most_gates = MOST_GATES as u32;
    let gates = number_or(text(matches, "gates"), 1, most_gates, usual.gates as u32);
    Some(Values {
        plan: chosen(text(matches, "plan"), usual.plan)?,
        lines: number_or(text(matches, "lines"), 1, MOST_LINES, usual.lines)?,
        gates: u64::from(gates?),
        borrow: number_or(text(matches, "borrow"), 0, MOST_BORROWED, usual.borrow)?,
        nodes: number_or(text(matches, "nodes"), 1, MOST_NODES, usual.nodes)?,
        assume: number_or(text(matches, "assume"), 0, MOST_ASSUMED, usual.assume)?,
        outputs: placing_or(command, text(matches, "outputs"), usual.outputs)?,
        way: chosen(way_text(command, matches), usual.way)?,
        format: chosen(text(matches, "format"), usual.format)?,
        from: chosen(text(matches, "from"), usual.from)?,
        to: chosen(text(matches, "to"), usual.to)?,
        aim: chosen(text(matches, "for"), usual.aim)?,
        by: number_or(factor_text(command, matches), 1, MOST_FACTOR, usual.by)?,
        write: chosen(text(matches, "write"), usual.write)?,
    })
}

// The text that is given to an option.
fn text<'a>(matches: &ArgMatches<'a>, option: &str) -> Option<&'a str>
    ensures { text_at result
        ≡ first_of option.now (rows_of (found_of matches.now)) }
{
    matches.get_str(option)
}

// The text that is given for the way by which a circuit is verified.
fn way_text<'a>(command: Command, matches: &ArgMatches<'a>) -> Option<&'a str>
    ensures { text_at result ≡ first_of (way_option command) (rows_of (found_of matches.now)) }
{
    text(matches, command.way_option())
}

// The text that is given for the factor by which a program multiplies.
fn factor_text<'a>(command: Command, matches: &ArgMatches<'a>) -> Option<&'a str>
    ensures { text_at result ≡ first_of (factor_option command) (rows_of (found_of matches.now)) }
{
    text(matches, command.factor_option())
}

// The number that a text writes, or the usual one where there is no text.
fn number_or(text: Option<&str>, least: u32, most: u32, usual: u32) -> Option<u32>
    ensures { result ≡ value_or usual (number_of least most) (text_at text.entry) }
{
    match text {
        Some(text) => number(text, least, most),
        None => Some(usual),
    }
}

// Where a text that is given to a command says that the outputs are, or the usual one where there
// is no text.
fn placing_or(command: Command, text: Option<&str>, usual: Placing) -> Option<Placing>
    ensures { result ≡ value_or usual (placing_for command) (text_at text.entry) }
{
    match text {
        Some(text) => placing(command, text),
        None => Some(usual),
    }
}

// Where this text says to a command that the outputs are.
fn placing(command: Command, text: &str) -> Option<Placing>
    ensures { result ≡ placing_for command text.now }
{
    match command {
        Command::Compile => in_place(text),
        _ => Placing::named(text),
    }
}

// The outputs in place, if the text says that.
fn in_place(text: &str) -> Option<Placing>
    ensures { result ≡ in_place_of text.now }
{
    match text {
        "inputs" => Some(Placing::InPlace),
        _ => None,
    }
}

/// The number that a text of 1 to 7 digits writes, if it is in this range.
pub fn number(text: &str, least: u32, most: u32) -> Option<u32>
    ensures { result ≡ number_of least most text.now }
{
    if text.len() > MOST_DIGITS || text.starts_with('+') {
        return None;
    }
    let n = text.parse::<u32>().ok()?;
    if n < least || most < n {
        return None;
    }
    Some(n)
}

// What an option chooses, by a name.
trait Choice: Copy {
    // The choice of each name that has one.
    ghost choice: { List ℕ → Option Self };

    fn named(name: &str) -> Option<Self>
        ensures { result ≡ choice name.now };
}

// The choice with this name, or the usual one where there is no name.
fn chosen<C: Choice>(name: Option<&str>, usual: C) -> Option<C>
    ensures { result ≡ value_or usual C.choice (text_at name.entry) }
{
    match name {
        Some(name) => C::named(name),
        None => Some(usual),
    }
}

impl Choice for Plan {
    ghost choice = { plan_of };

    fn named(name: &str) -> Option<Plan> {
        match name {
            "auto" => Some(Plan::Auto),
            "compact" => Some(Plan::Compact),
            "eager" => Some(Plan::Eager),
            "lean" => Some(Plan::Lean),
            "pebble" => Some(Plan::Pebble),
            "shallow" => Some(Plan::Shallow),
            _ => None,
        }
    }
}

impl Choice for Placing {
    ghost choice = { placing_of };

    fn named(name: &str) -> Option<Placing> {
        match name {
            "any" => Some(Placing::Added(Start::Any)),
            "inputs" => Some(Placing::InPlace),
            "zero" => Some(Placing::Added(Start::Zero)),
            _ => None,
        }
    }
}

impl Choice for Way {
    ghost choice = { way_of };

    fn named(name: &str) -> Option<Way> {
        match name {
            "diagrams" => Some(Way::Diagrams),
            "sums" => Some(Way::Sums),
            "both" => Some(Way::Both),
            _ => None,
        }
    }
}

impl Choice for Format {
    ghost choice = { format_of };

    fn named(name: &str) -> Option<Format> {
        match name {
            "real" => Some(Format::Real),
            "qasm" => Some(Format::Qasm),
            _ => None,
        }
    }
}

impl Choice for Aim {
    ghost choice = { aim_of };

    fn named(name: &str) -> Option<Aim> {
        match name {
            "gates" => Some(Aim::Gates),
            "depth" => Some(Aim::Depth),
            "order" => Some(Aim::Order),
            _ => None,
        }
    }
}

impl Choice for Write {
    ghost choice = { write_of };

    fn named(name: &str) -> Option<Write> {
        match name {
            "program" => Some(Write::Program),
            "real" => Some(Write::Real),
            "qasm" => Some(Write::Qasm),
            _ => None,
        }
    }
}

/// The kind of programs with this name.
pub fn kind(name: &str) -> Option<Kind>
    ensures { result ≡ kind_of name.now }
{
    match name {
        "add" => Some(Kind::Add),
        "sub" => Some(Kind::Sub),
        "less" => Some(Kind::Less),
        "inc" => Some(Kind::Inc),
        "mul" => Some(Kind::Mul),
        _ => None,
    }
}
