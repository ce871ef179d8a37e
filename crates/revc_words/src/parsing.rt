// What clap makes of the words of a command.
ghost use Rattle.std.specs.Prelude.{◌≡◌, IfOk, IsErrOf, None, Some, false};
ghost use Rattle.clap.specs.Words.{app_of, found_of, rows_of, rule_of, with_rule};
ghost use Rattle.revc_words.specs.Words.{words_of};
ghost use Rattle.revc_words.specs.inside.Parsing.{app_for, option_rule, parsed, word_rule};

use crate::{Command, WordsFault};
use clap::{Arg, ArgAction, ArgMatches};
use revc_base::Memory;
use std::alloc::Global;

// The command that clap reads by.
fn app<'a>(alloc: Global, command: Command) -> Result<clap::Command<'a>, Memory>
    ensures { IfOk result (λ app. app_of app ≡ app_for command) }
{
    let spelling = command.spelling();
    let mut app = clap::Command::new(alloc, spelling.name).disable_help_flag(true);
    let names = spelling.options;
    for name in names {
        app = with(app, option(alloc, name))?;
    }
    if !spelling.takes.takes_any() {
        return Ok(app);
    }
    with(app, any_words(alloc))
}

// The command with one more argument.
fn with<'a>(app: clap::Command<'a>, arg: Arg<'a>) -> Result<clap::Command<'a>, Memory>
    requires { arg.global ≡ false }
    ensures { IfOk result (λ more.
        app_of more ≡ with_rule (app_of app.entry) (rule_of arg.entry)) }
{
    Ok(app.arg(arg)?)
}

// An option with this name.
fn option<'a>(alloc: Global, name: &'a str) -> Arg<'a>
    ensures rule { rule_of result ≡ option_rule name.now }
    ensures plain { result.global ≡ false }
{
    Arg::new(alloc, name).long(name)
}

// The positional words, each a use of one argument.
fn any_words<'a>(alloc: Global) -> Arg<'a>
    ensures rule { rule_of result ≡ word_rule }
    ensures plain { result.global ≡ false }
{
    Arg::new(alloc, "word").action(ArgAction::Append)
}

/// What the words of a command are parsed to. The first of them is its name.
pub fn matched<'a>(
    alloc: Global,
    command: Command,
    words: &'a [String],
) -> Result<ArgMatches<'a>, WordsFault>
    ensures ok { IfOk result (λ matches.
        parsed command (words_of words.now) ≡ Some (rows_of (found_of matches))) }
    ensures usage { IsErrOf result WordsFault.Usage
        → parsed command (words_of words.now) ≡ None }
{
    Ok(app(alloc, command)?.try_get_matches_from(words)?)
}
