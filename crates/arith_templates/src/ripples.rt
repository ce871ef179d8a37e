// Texts that go from place to place.
ghost use Rattle.std.specs.Prelude.{◌≡◌, ℕ, ◌-◌, ◌<◌, ◌≤◌, ◌++◌, List, string_bytes};
ghost use Rattle.std.specs.Prelude.{IfOk, OnOk};
ghost use Rattle.std.specs.List.{flat_map, range_with_len};
ghost use Rattle.arith_templates.specs.Ripples.{Puts, outputs, ripple_text};

use revc_base::Memory;
use std::alloc::{AllocError, Global};

// Puts each place from the first one on to the end. It answers `AllocError` where memory is
// refused.
pub(crate) fn put_places<P>(
    text: &mut String,
    first: u32,
    end: u32,
    put: P,
) -> Result<(), AllocError>
where
    P: Fn(&mut String, u32) -> Result<(), AllocError>,
    requires { (before : _) (i : ℕ) → first ≤ i → i < end → P.pre put before i }
    ensures { (piece : ℕ → List ℕ) → Puts (λ text. string_bytes text.now) (P.post put) piece
        → OnOk result (string_bytes text.new
        ≡ string_bytes text.old ++ flat_map piece (range_with_len first (end - first))) }
{
    for i in first..end {
        put(text, i)?;
    }
    Ok(())
}

// Puts the bits of all places under this name, and then what goes out of the last one. It answers
// `AllocError` where memory is refused.
#[tactic(auto, unfolding(crate::specs::Ripples::output, crate::specs::Ripples::outputs))]
pub(crate) fn put_outputs(text: &mut String, name: &str, n: u32) -> Result<(), AllocError>
    ensures { OnOk result (string_bytes text.new ≡ string_bytes text.old ++ outputs name.now n) }
{
    text.push_str("reg [")?;
    put_places(text, 0, n, |text, i| write!(text, "{name}{i}; "))?;
    writeln!(text, "c{n}]")
}

// The text of a program that goes from place to place: what opens it, place 0 with it, each place
// above 0, what it puts out, and its end. It answers `Memory` where memory is refused.
pub(crate) fn ripple_text<O, P, E>(
    alloc: Global,
    n: u32,
    opening: O,
    place: P,
    last: E,
) -> Result<Vec<u8>, Memory>
where
    O: Fn(&mut String, u32) -> Result<(), AllocError>,
    P: Fn(&mut String, u32) -> Result<(), AllocError>,
    E: Fn(&mut String, u32) -> Result<(), AllocError>,
    requires opens { (before : _) → O.pre opening before n }
    requires goes { (before : _) (i : ℕ) → 1 ≤ i → i < n → P.pre place before i }
    requires ends { (before : _) → E.pre last before n }
    ensures { (front piece behind : ℕ → List ℕ)
        → Puts (λ text. string_bytes text.now) (O.post opening) front
        → Puts (λ text. string_bytes text.now) (P.post place) piece
        → Puts (λ text. string_bytes text.now) (E.post last) behind
        → IfOk result (λ text. text.items ≡ ripple_text front piece behind n) }
{
    let mut text = String::new(alloc);
    opening(&mut text, n)?;
    put_places(&mut text, 1, n, place)?;
    last(&mut text, n)?;
    text.push_str("}\n")?;
    Ok(text.into_bytes())
}
