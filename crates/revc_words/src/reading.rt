// From the words of the command line to what they ask for.
ghost use Rattle.std.specs.Prelude.{◌≡◌, ◌≢◌, ◌↔◌, ◌∷◌, ◌++◌, [], None, Some, Err};
ghost use Rattle.std.specs.Prelude.{IfOk, OnOk, IsErrOf, map};
ghost use Rattle.clap.specs.Words.{found_of, rows_of};
ghost use Rattle.revc_words.specs.Words.{HasNoOrder, IsOrder, OneOrder, OrdersAreWithinLimits};
ghost use Rattle.revc_words.specs.Words.{order_of, words_of};
ghost use Rattle.revc_words.specs.inside.Parsing.{bits_for, kind_for, number_for, order_by};
ghost use Rattle.revc_words.specs.inside.Parsing.{order_for, takes_factor, with_factor};

use crate::parsing::matched;
use crate::values::{kind, number, values_given};
use crate::{Command, Order, Positional, Values, WordsFault};
use arith_templates::{Kind, MOST_BITS};
use clap::ArgMatches;
use revc_base::Memory;
use std::alloc::Global;

/// The words of the command line, without the program's own name, give one order at most.
pub fn one_order()
    ensures { OneOrder }
{}

/// The numbers of each order are within their limits.
pub fn orders_are_within_limits()
    ensures { OrdersAreWithinLimits }
{}

/// The order that the words of the command line give, without the program's own name.
///
/// # Errors
///
/// `Usage` exactly where they give none, save for want of memory, which may come before that is
/// known.
pub fn read_words(alloc: Global, words: &[String]) -> Result<Order, WordsFault>
    ensures ok { IfOk result (λ order. IsOrder (words_of words.now) (order_of order)) }
    ensures usage { result ≢ Err (WordsFault.Memory _)
        → (IsErrOf result WordsFault.Usage ↔ HasNoOrder (words_of words.now)) }
{
    let [name, ..] = words else {
        return Err(WordsFault::Usage);
    };
    let Some(command) = Command::named(name.as_str()) else {
        return Err(WordsFault::Usage);
    };
    let matches = matched(alloc, command, words)?;
    order(alloc, command, &matches)
}

// The order of a command whose words were parsed so.
fn order(alloc: Global, command: Command, matches: &ArgMatches) -> Result<Order, WordsFault>
    ensures ok { IfOk result (λ order.
        order_for command (rows_of (found_of matches.now)) ≡ Some (order_of order)) }
    ensures usage { IsErrOf result WordsFault.Usage
        → order_for command (rows_of (found_of matches.now)) ≡ None }
{
    let Some(values) = values_given(command, matches) else {
        return Err(WordsFault::Usage);
    };
    match matches.get_strs("word") {
        Some(words) => order_by(alloc, command, values, words),
        None => order_by(alloc, command, values, &[]),
    }
}

// The order of a command with these values and positional words.
fn order_by(
    alloc: Global,
    command: Command,
    values: Values,
    words: &[&str],
) -> Result<Order, WordsFault>
    ensures ok { IfOk result (λ order.
        order_by command (map (λ s. s.now) words.now) values ≡ Some (order_of order)) }
    ensures usage { IsErrOf result WordsFault.Usage
        → order_by command (map (λ s. s.now) words.now) values ≡ None }
{
    let takes = command.spelling().takes;
    if !takes.takes_count(words.len()) {
        return Err(WordsFault::Usage);
    }
    let Some(kind) = kind_asked(takes, values.by, words) else {
        return Err(WordsFault::Usage);
    };
    let Some(number) = number_asked(takes, words) else {
        return Err(WordsFault::Usage);
    };
    let bits = bits_asked(alloc, takes, words)?;
    Ok(Order {
        command,
        values,
        kind,
        number,
        bits,
    })
}

// The kind of programs that a command takes its first positional word for, with a factor exactly
// where it multiplies; `Add` where it takes none.
fn kind_asked(takes: Positional, by: u32, words: &[&str]) -> Option<Kind>
    ensures { result ≡ kind_for takes by (map (λ s. s.now) words.now) }
{
    if !takes.takes_kind() {
        return Some(Kind::Add);
    }
    match words {
        [word, ..] => with_factor(kind(word)?, by),
        [] => None,
    }
}

// The kind, which has a factor, that is not 0, exactly where it multiplies.
fn with_factor(kind: Kind, by: u32) -> Option<Kind>
    ensures { result ≡ with_factor by kind }
{
    if takes_factor(kind) != (by != 0) {
        return None;
    }
    Some(kind)
}

// Whether programs of a kind multiply.
fn takes_factor(kind: Kind) -> bool
    ensures { result ≡ takes_factor kind }
{
    match kind {
        Kind::Add | Kind::Sub | Kind::Less | Kind::Inc => false,
        Kind::Mul => true,
    }
}

// The number that a command takes its last positional word for, and 0 where it takes none.
fn number_asked(takes: Positional, words: &[&str]) -> Option<u32>
    ensures { result ≡ number_for takes (map (λ s. s.now) words.now) }
{
    if !takes.takes_number() {
        return Some(0);
    }
    match words {
        [_, word, ..] => number(word, 1, MOST_BITS),
        [word] => number(word, 1, MOST_BITS),
        [] => number("", 1, MOST_BITS),
    }
}

// The words of bits: the positional words, where a command takes them so.
fn bits_asked(alloc: Global, takes: Positional, words: &[&str]) -> Result<Vec<String>, Memory>
    ensures { IfOk result (λ bits.
        words_of bits.items ≡ bits_for takes (map (λ s. s.now) words.now)) }
{
    let mut bits = Vec::new(alloc);
    if takes.takes_number() {
        return Ok(bits);
    }
    for word in words {
        push_copy(&mut bits, word)?;
    }
    Ok(bits)
}

fn push_copy(words: &mut Vec<String>, word: &str) -> Result<(), Memory>
    ensures { OnOk result (words_of words.new.items ≡ words_of words.old.items ++ word.now ∷ []) }
{
    let copy = String::from_str(*words.allocator(), word)?;
    Ok(words.push(copy)?)
}
