// The commands, each by one record of what the words of the command line see of it.
ghost use Rattle.std.specs.Prelude.{◌≡◌, map};
ghost use Rattle.revc_words.specs.Commands.{factor_option, name_of, options_of, takes_of};
ghost use Rattle.revc_words.specs.Commands.{way_option};
ghost use Rattle.revc_words.specs.inside.Parsing.{command_named, takes_any, takes_count};
ghost use Rattle.revc_words.specs.inside.Parsing.{takes_kind, takes_number};

/// What is to be done.
#[derive(Clone, Copy, PartialEq, Eq)]
pub enum Command {
    /// Reads a program and writes the file of its clean circuit.
    Compile,
    /// Reads a program and writes how many claims it has, each of which holds on all inputs.
    Check,
    /// Reads a program and writes how many ANDs its run writes, and how many are enough.
    Ands,
    /// Reads a program and writes the bits that it gives on the bits of a word.
    Eval,
    /// Reads a circuit and writes its counts.
    Stat,
    /// Reads a circuit and writes the bits that it gives on the bits of each word.
    Run,
    /// Reads a circuit and writes the file of a narrow one with the same line map.
    Convert,
    /// Reads a circuit and writes the file of fewer narrow gates, or of a smaller depth, with the
    /// same line map.
    Tidy,
    /// Writes the program of an adder.
    Gen,
    /// Compiles the program of an adder and writes its sizes.
    Bench,
    /// Reads a program and a circuit and writes that the circuit computes the program.
    Verify,
    /// Writes a program that computes with numbers, or the file of its clean circuit.
    Arith,
}

/// What a command takes its positional words for.
#[derive(Clone, Copy, PartialEq, Eq)]
pub enum Positional {
    /// There are none.
    Nothing,
    /// One word of bits.
    Word,
    /// One or more words of bits.
    Words,
    /// One number, 1 to 200.
    Number,
    /// A kind of programs that compute with numbers, and a number, 1 to 200.
    KindAndNumber,
}

// What words see of a command.
#[derive(Clone, Copy)]
pub struct Spelling<'a> {
    // The first word.
    pub name: &'a str,
    // The names of its options.
    pub options: &'a [&'a str],
    pub takes: Positional,
}

impl Command {
    // All commands.
    const ALL: [Command; 12] = [
        Command::Compile,
        Command::Check,
        Command::Ands,
        Command::Eval,
        Command::Stat,
        Command::Run,
        Command::Convert,
        Command::Tidy,
        Command::Gen,
        Command::Bench,
        Command::Verify,
        Command::Arith,
    ];

    // What words see of it.
    pub fn spelling<'a>(self) -> Spelling<'a>
        ensures name { result.name.now ≡ name_of self }
        ensures options { map (λ s. s.now) result.options.now ≡ options_of self }
        ensures takes { result.takes ≡ takes_of self }
    {
        match self {
            Command::Compile => spelled(
                "compile",
                &[
                    "plan", "lines", "gates", "borrow", "nodes", "format", "outputs", "assume",
                ],
                Positional::Nothing,
            ),
            Command::Check => spelled("check", &["nodes", "assume"], Positional::Nothing),
            Command::Ands => spelled("ands", &["nodes", "assume"], Positional::Nothing),
            Command::Eval => spelled("eval", &[], Positional::Word),
            Command::Stat => spelled("stat", &["from"], Positional::Nothing),
            Command::Run => spelled("run", &["from"], Positional::Words),
            Command::Convert => spelled("convert", &["from", "to"], Positional::Nothing),
            Command::Tidy => spelled("tidy", &["from", "to", "for"], Positional::Nothing),
            Command::Gen => spelled("gen", &[], Positional::Number),
            Command::Bench => spelled(
                "bench",
                &["plan", "lines", "gates", "borrow", "nodes"],
                Positional::Number,
            ),
            Command::Verify => spelled(
                "verify",
                &["from", "nodes", "borrow", "outputs", "by", "assume"],
                Positional::Nothing,
            ),
            Command::Arith => spelled("arith", &["by", "write"], Positional::KindAndNumber),
        }
    }

    // The option that gives the factor by which a program multiplies.
    pub fn factor_option<'a>(self) -> &'a str
        ensures { result.now ≡ factor_option self }
    {
        match self {
            Command::Verify => "",
            _ => "by",
        }
    }

    // The option that gives the way by which a circuit is verified.
    pub fn way_option<'a>(self) -> &'a str
        ensures { result.now ≡ way_option self }
    {
        match self {
            Command::Verify => "by",
            _ => "",
        }
    }

    // The command with this name.
    pub fn named(name: &str) -> Option<Command>
        ensures { result ≡ command_named name.now }
    {
        Command::ALL
            .iter()
            .copied()
            .find(|command| command.spelling().name == name)
    }
}

fn spelled<'a>(name: &'a str, options: &'a [&'a str], takes: Positional) -> Spelling<'a>
    ensures name { result.name.now ≡ name.now }
    ensures options { result.options.now ≡ options.now }
    ensures takes { result.takes ≡ takes }
{
    Spelling {
        name,
        options,
        takes,
    }
}

impl Positional {
    // Whether there are any.
    pub fn takes_any(self) -> bool
        ensures { result ≡ takes_any self }
    {
        match self {
            Positional::Nothing => false,
            Positional::Word | Positional::Words | Positional::Number | Positional::KindAndNumber =>
                true,
        }
    }

    // Whether there may be so many.
    pub fn takes_count(self, count: usize) -> bool
        ensures { result ≡ takes_count self count }
    {
        match self {
            Positional::Nothing => count == 0,
            Positional::Word | Positional::Number => count == 1,
            Positional::Words => 1 <= count,
            Positional::KindAndNumber => count == 2,
        }
    }

    // Whether there is a number among them, the last of them.
    pub fn takes_number(self) -> bool
        ensures { result ≡ takes_number self }
    {
        match self {
            Positional::Nothing | Positional::Word | Positional::Words => false,
            Positional::Number | Positional::KindAndNumber => true,
        }
    }

    // Whether there is a kind of programs among them, the first of them.
    pub fn takes_kind(self) -> bool
        ensures { result ≡ takes_kind self }
    {
        match self {
            Positional::Nothing | Positional::Word | Positional::Words | Positional::Number =>
                false,
            Positional::KindAndNumber => true,
        }
    }
}
