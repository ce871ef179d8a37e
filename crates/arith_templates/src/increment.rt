// The lines of the program that adds 1.
ghost use Rattle.std.specs.Prelude.{◌≡◌, ◌≤◌, ◌++◌, string_bytes, OnOk};
ghost use Rattle.arith_templates.specs.Texts.{parameter, incrementer_opening, increment_place};

use crate::limits::MOST_BITS;
use std::alloc::AllocError;

// The parameter: one number.
#[tactic(auto, unfolding(crate::specs::Texts::parameter))]
pub(crate) fn put_parameter(text: &mut String, n: u32) -> Result<(), AllocError>
    ensures { OnOk result (string_bytes text.new ≡ string_bytes text.old ++ parameter n) }
{
    writeln!(text, "main (a : bool[{n}]) = {{")
}

// The parameter, and the sum and the carry of place 0.
#[tactic(auto, unfolding(crate::specs::Texts::first_increment))]
pub(crate) fn put_incrementer_opening(text: &mut String, n: u32) -> Result<(), AllocError>
    ensures { OnOk result (string_bytes text.new
        ≡ string_bytes text.old ++ incrementer_opening n) }
{
    put_parameter(text, n)?;
    text.push_str("let s0 = true <> a.[0];\nlet c1 = a.[0];\n")
}

// The sum and the carry out of a place above 0.
#[tactic(auto, unfolding(crate::specs::Texts::increment_line, crate::specs::Texts::increment_carry_line))]
pub(crate) fn put_increment(text: &mut String, i: u32) -> Result<(), AllocError>
    requires { i ≤ MOST_BITS }
    ensures { OnOk result (string_bytes text.new
        ≡ string_bytes text.old ++ increment_place i) }
{
    let next = i + 1;
    writeln!(text, "let s{i} = a.[{i}] <> c{i};")?;
    writeln!(text, "let c{next} = a.[{i}] && c{i};")
}
