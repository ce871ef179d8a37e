// Places in a text.
ghost use Rattle.std.specs.Prelude.{◌≡◌, ◌+◌, ◌≤◌, ◌^◌, length};
ghost use Rattle.text_places.specs.Places.{place_after};

use revc_base::Place;

/// The place behind bytes that begin at a place.
pub fn place_after(mut at: Place, bytes: &[u8]) -> Place
    requires line { 1 ≤ at.line }
    requires column { 1 ≤ at.column }
    requires room { at.line + at.column + length bytes.now ≤ 2 ^ 32 }
    ensures place { result ≡ place_after at bytes.now }
    ensures line { 1 ≤ result.line }
    ensures column { 1 ≤ result.column }
    ensures room { result.line + result.column ≤ at.line + at.column + length bytes.now }
{
    for byte in bytes {
        if *byte == b'\n' {
            at.line += 1;
            at.column = 1;
        } else {
            at.column += 1;
        }
    }
    at
}
