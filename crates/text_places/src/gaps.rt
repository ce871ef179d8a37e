// Blanks and comments.
ghost use Rattle.std.specs.Prelude.{◌≡◌, ◌<◌, ◌≤◌, take, drop, length, not};
ghost use Rattle.std.specs.List.{prefix_len};
ghost use Rattle.text_places.specs.Bytes.{is_line_feed};
ghost use Rattle.text_places.specs.Gaps.{IsGap, HasNoGap};

use crate::is_blank;

/// How many bytes the blank or the comment at the front of the text has: 0 where there is none.
///
/// A comment is `//` with everything before the next line feed or the end of the text.
pub fn gap_len(text: &[u8]) -> usize
    ensures in_range { result ≤ length text.now }
    ensures found { 0 < result → IsGap (take result text.now) (drop result text.now) }
    ensures none { result ≡ 0 → HasNoGap text.now }
{
    if text.is_empty() {
        return 0;
    }
    if is_blank(text[0]) {
        return 1;
    }
    if text.starts_with(b"//") {
        return line_len(text);
    }
    0
}

// How many bytes stand before the first line feed.
fn line_len(text: &[u8]) -> usize
    ensures { result ≡ prefix_len (λ b. not (is_line_feed b)) text.now }
{
    text.iter().take_while(|byte| **byte != b'\n').count()
}
