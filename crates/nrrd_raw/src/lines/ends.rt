//! The lines of a header.

ghost use Rattle.std.specs.Prelude.{◌≡◌, ◌+◌, ◌≤◌, ◌<◌, nat_eq, length, drop};
ghost use Rattle.std.specs.List.{position_or_len};
ghost use Rattle.nrrd_raw.specs.LineEnds as ends;

/// The text of the line that begins at `from`, without its end, which is LF or CR LF, and the place behind that end.
pub(crate) fn line_at(bytes: &[u8], from: usize) -> (&[u8], usize)
    requires { from < length bytes.now }
    ensures later { from < result.1 }
    ensures within { result.1 ≤ length bytes.now }
    ensures text { result.0.now ≡ ends.first_text (drop from bytes.now) }
    ensures next { ends.IsBehindFeed bytes.now from result.1 }
{
    let end = feed_from(bytes, from);
    let next = if end < bytes.len() { end + 1 } else { end };
    (without_return(&bytes[from..end]), next)
}

/// The place of the first LF from `from` on, or the length where there is none.
fn feed_from(bytes: &[u8], from: usize) -> usize
    requires { from ≤ length bytes.now }
    ensures later { from ≤ result }
    ensures within { result ≤ length bytes.now }
    ensures first { result ≡ ends.feed_from bytes.now from }
{
    for at in from..bytes.len() {
        if bytes[at] == b'\n' {
            return at;
        }
    }
    bytes.len()
}

/// The text without a CR at its end.
pub(crate) fn without_return(text: &[u8]) -> &[u8]
    ensures { result.now ≡ ends.without_return text.now }
{
    if !text.is_empty() && text[text.len() - 1] == b'\r' {
        return &text[..text.len() - 1];
    }
    text
}
