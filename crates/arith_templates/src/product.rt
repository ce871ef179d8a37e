// The program that multiplies by a constant, line by line.
ghost use Rattle.std.specs.Prelude.{◌≡◌, ◌-◌, ◌≤◌, ◌++◌, string_bytes, length, IfOk, OnOk};
ghost use Rattle.std.specs.List.{flat_map, range_with_len};
ghost use Rattle.arith_templates.specs.Numbers.{digits_of};
ghost use Rattle.arith_templates.specs.Texts.{plus_function};
ghost use Rattle.arith_templates.specs.Texts.{zero_line, further_zero, digit_line};
ghost use Rattle.arith_templates.specs.Texts.{digit_lines, add_line, multiplier_text};

use crate::adder::{put_carry, put_sums};
use crate::increment::put_parameter;
use crate::limits::{MOST_BITS, MOST_FACTOR};
use crate::ripples::{put_outputs, put_places};
use revc_base::Memory;
use std::alloc::{AllocError, Global};

// The text of the program that multiplies by a number.
#[tactic(auto, unfolding(crate::specs::Texts::product_line))]
pub(crate) fn multiplier(alloc: Global, n: u32, by: u32) -> Result<Vec<u8>, Memory>
    requires some { 1 ≤ n }
    requires few { n ≤ MOST_BITS }
    requires factor { by ≤ MOST_FACTOR }
    ensures { IfOk result (λ text. text.items ≡ multiplier_text n (digits_of by)) }
{
    let mut text = String::new(alloc);
    put_parameter(&mut text, n)?;
    put_carry(&mut text)?;
    put_plus(&mut text, n)?;
    put_zero(&mut text, n)?;
    let count = put_digits(&mut text, n, by)?;
    writeln!(&mut text, "r{count}")?;
    text.push_str("}\n")?;
    Ok(text.into_bytes())
}

// The function that adds two numbers.
#[tactic(auto, unfolding(crate::specs::Texts::plus_opening, crate::specs::Texts::plus_closing))]
fn put_plus(text: &mut String, n: u32) -> Result<(), AllocError>
    requires { n ≤ MOST_BITS }
    ensures { OnOk result (string_bytes text.new ≡ string_bytes text.old ++ plus_function n) }
{
    text.push_str("let plus p q = {\n")?;
    put_sums(text, "p", "q", n)?;
    put_outputs(text, "s", n)?;
    text.push_str("};\n")
}

// The number 0.
#[tactic(auto, unfolding(crate::specs::Texts::zero_line))]
fn put_zero(text: &mut String, n: u32) -> Result<(), AllocError>
    ensures { OnOk result (string_bytes text.new ≡ string_bytes text.old ++ zero_line n) }
{
    text.push_str("let r0 = reg [false")?;
    put_further_zeros(text, n)?;
    text.push_str("];\n")
}

// The bits of the number 0 behind the first.
#[tactic(auto, unfolding(crate::specs::Texts::further_zero))]
fn put_further_zeros(text: &mut String, n: u32) -> Result<(), AllocError>
    ensures { OnOk result (string_bytes text.new
        ≡ string_bytes text.old ++ flat_map further_zero (range_with_len 1 (n - 1))) }
{
    put_places(text, 1, n, |text, _| text.push_str("; false"))
}

// The lines of the digits of a number; it answers how many there are.
fn put_digits(text: &mut String, n: u32, by: u32) -> Result<u32, AllocError>
    requires some { 1 ≤ n }
    requires few { n ≤ MOST_BITS }
    requires factor { by ≤ MOST_FACTOR }
    ensures bytes { OnOk result (string_bytes text.new
        ≡ string_bytes text.old ++ digit_lines n 0 (digits_of by)) }
    ensures count { IfOk result (λ count. count ≡ length (digits_of by)) }
{
    let mut rest = by;
    let mut count = 0;
    'digits: while rest > 0 {
        put_digit(text, n, count, rest % 2 == 1)?;
        rest /= 2;
        count += 1;
    }
    Ok(count)
}

// The line of the digit at a place.
#[tactic(auto, unfolding(crate::specs::Texts::shift_line, crate::specs::Texts::first_add_line))]
fn put_digit(text: &mut String, n: u32, place: u32, digit: bool) -> Result<(), AllocError>
    requires few { n ≤ MOST_BITS }
    requires low { place ≤ MOST_FACTOR }
    ensures { OnOk result (string_bytes text.new
        ≡ string_bytes text.old ++ digit_line n place digit) }
{
    let next = place + 1;
    if !digit {
        return writeln!(text, "let r{next} = append r{place} reg [false];");
    }
    if place == 0 {
        return writeln!(text, "let r1 = plus r0 a;");
    }
    put_later_one(text, n, place - 1)
}

// The line of the digit 1 behind place `below`.
#[tactic(auto, unfolding(crate::specs::Texts::add_line))]
fn put_later_one(text: &mut String, n: u32, below: u32) -> Result<(), AllocError>
    requires few { n ≤ MOST_BITS }
    requires low { below ≤ MOST_FACTOR }
    ensures { OnOk result (string_bytes text.new ≡ string_bytes text.old ++ add_line n below) }
{
    let place = below + 1;
    let next = below + 2;
    let end = n + below;
    write!(text, "let r{next} = append r{place}.[0..{below}] ")?;
    writeln!(text, "(plus r{place}.[{place}..{end}] a);")
}
