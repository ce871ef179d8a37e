// The program of a ripple-carry adder, line by line.
ghost use Rattle.std.specs.Prelude.{◌≡◌, ◌-◌, ◌≤◌, ◌++◌, string_bytes, IfOk, OnOk};
ghost use Rattle.std.specs.List.{flat_map, range_with_len};
ghost use Rattle.arith_templates.specs.Adder.{adder_text, adder_opening, parameters};
ghost use Rattle.arith_templates.specs.Adder.{carry_function, first_place, place};

use crate::limits::MOST_BITS;
use crate::ripples::{put_outputs, put_places, ripple_text};
use revc_base::Memory;
use std::alloc::{AllocError, Global};

// The text of the program that adds two numbers of `n` bits, 1 to 200, as a ripple-carry adder of
// full adders does (Knuth, The Art of Computer Programming, volume 4A, section 7.1.2). It has 2n
// inputs, and its n + 1 outputs are the sum, its least bit first. Each line ends with a line feed.
// It answers `Memory` where memory is refused.
pub(crate) fn adder_text(alloc: Global, n: u32) -> Result<Vec<u8>, Memory>
    requires some { 1 ≤ n }
    requires few { n ≤ MOST_BITS }
    ensures { IfOk result (λ text. text.items ≡ adder_text n) }
{
    ripple_text(
        alloc,
        n,
        put_opening,
        |text, i| put_place(text, "a", "b", i),
        |text, n| put_outputs(text, "s", n),
    )
}

// The parameters, the carry as a function, and place 0.
fn put_opening(text: &mut String, n: u32) -> Result<(), AllocError>
    ensures { OnOk result (string_bytes text.new ≡ string_bytes text.old ++ adder_opening n) }
{
    put_parameters(text, n)?;
    put_carry(text)?;
    put_first_place(text, "a", "b")
}

// Puts the parameters: two numbers of `n` bits. It answers `AllocError` where memory is refused.
#[tactic(auto, unfolding(crate::specs::Adder::parameters))]
pub(crate) fn put_parameters(text: &mut String, n: u32) -> Result<(), AllocError>
    ensures { OnOk result (string_bytes text.new ≡ string_bytes text.old ++ parameters n) }
{
    writeln!(text, "main (a : bool[{n}]) (b : bool[{n}]) = {{")
}

// Puts the carry as a function. It answers `AllocError` where memory is refused.
#[tactic(auto, unfolding(crate::specs::Adder::carry_function))]
pub(crate) fn put_carry(text: &mut String) -> Result<(), AllocError>
    ensures { OnOk result (string_bytes text.new ≡ string_bytes text.old ++ carry_function) }
{
    text.push_str("let carry x y c = (x && y) <> (c && (x <> y));\n")
}

// Puts the sums and the carries of all places of two numbers of these names, which have `n` bits,
// 1 to 200. It answers `AllocError` where memory is refused.
pub(crate) fn put_sums(
    text: &mut String,
    first: &str,
    second: &str,
    n: u32,
) -> Result<(), AllocError>
    requires { n ≤ MOST_BITS }
    ensures { OnOk result (string_bytes text.new ≡ string_bytes text.old
        ++ (first_place first.now second.now
        ++ flat_map (place first.now second.now) (range_with_len 1 (n - 1)))) }
{
    put_first_place(text, first, second)?;
    put_places(text, 1, n, |text, i| put_place(text, first, second, i))
}

#[tactic(auto, unfolding(crate::specs::Adder::first_place))]
fn put_first_place(text: &mut String, first: &str, second: &str) -> Result<(), AllocError>
    ensures { OnOk result (string_bytes text.new
        ≡ string_bytes text.old ++ first_place first.now second.now) }
{
    writeln!(text, "let s0 = {first}.[0] <> {second}.[0];")?;
    writeln!(text, "let c1 = {first}.[0] && {second}.[0];")
}

// The sum and the carry out of a place above 0.
#[tactic(auto, unfolding(crate::specs::Adder::sum_line, crate::specs::Adder::carry_line))]
fn put_place(text: &mut String, first: &str, second: &str, i: u32) -> Result<(), AllocError>
    requires { i ≤ MOST_BITS }
    ensures { OnOk result (string_bytes text.new
        ≡ string_bytes text.old ++ place first.now second.now i) }
{
    let next = i + 1;
    writeln!(text, "let s{i} = {first}.[{i}] <> {second}.[{i}] <> c{i};")?;
    writeln!(
        text,
        "let c{next} = carry {first}.[{i}] {second}.[{i}] c{i};"
    )
}
