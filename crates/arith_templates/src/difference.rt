// The lines of the programs that subtract and compare.
ghost use Rattle.std.specs.Prelude.{◌≡◌, ◌≤◌, ◌++◌, string_bytes, OnOk};
ghost use Rattle.arith_templates.specs.Adder.{parameters};
ghost use Rattle.arith_templates.specs.Texts.{borrow_function, first_borrow, difference_place};
ghost use Rattle.arith_templates.specs.Texts.{borrow_line, last_borrow_line};

use crate::adder::put_parameters;
use crate::limits::MOST_BITS;
use std::alloc::AllocError;

// The parameters, the borrow as a function, and place 0: these bytes, and the borrow out of it.
#[tactic(auto, unfolding(crate::specs::Texts::borrow_function, crate::specs::Texts::first_borrow))]
pub(crate) fn put_opening(text: &mut String, n: u32, first: &str) -> Result<(), AllocError>
    ensures { OnOk result (string_bytes text.new ≡ string_bytes text.old
        ++ (parameters n ++ (borrow_function ++ (first.now ++ first_borrow)))) }
{
    put_parameters(text, n)?;
    text.push_str("let lend x y c = ((true <> x) && y) <> (c && (true <> x <> y));\n")?;
    text.push_str(first)?;
    text.push_str("let c1 = (true <> a.[0]) && b.[0];\n")
}

// The difference and the borrow out of a place above 0.
#[tactic(auto, unfolding(crate::specs::Texts::difference_line))]
pub(crate) fn put_difference_place(text: &mut String, i: u32) -> Result<(), AllocError>
    requires { i ≤ MOST_BITS }
    ensures { OnOk result (string_bytes text.new
        ≡ string_bytes text.old ++ difference_place i) }
{
    writeln!(text, "let d{i} = a.[{i}] <> b.[{i}] <> c{i};")?;
    put_borrow(text, i)
}

// The borrow out of a place above 0.
#[tactic(auto, unfolding(crate::specs::Texts::borrow_line))]
pub(crate) fn put_borrow(text: &mut String, i: u32) -> Result<(), AllocError>
    requires { i ≤ MOST_BITS }
    ensures { OnOk result (string_bytes text.new ≡ string_bytes text.old ++ borrow_line i) }
{
    let next = i + 1;
    writeln!(text, "let c{next} = lend a.[{i}] b.[{i}] c{i};")
}

// The borrow out of the last place.
#[tactic(auto, unfolding(crate::specs::Texts::last_borrow_line))]
pub(crate) fn put_last_borrow(text: &mut String, n: u32) -> Result<(), AllocError>
    ensures { OnOk result (string_bytes text.new ≡ string_bytes text.old ++ last_borrow_line n) }
{
    writeln!(text, "c{n}")
}
