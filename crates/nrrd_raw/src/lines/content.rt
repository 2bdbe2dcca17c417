//! What a line between the first and the empty one says.

ghost use Rattle.std.specs.Prelude.{◌≡◌, ◌≤◌, ◌-◌, nat_eq, length, take, drop};
ghost use Rattle.std.specs.List.{position_or_len, prefix_len, suffix_len};
ghost use Rattle.iso_formats.specs.HeaderLines as lines;
ghost use Rattle.nrrd_raw.specs.Contents.{content_view};

/// A comment or a pair, a field with its name and its value, or none of these.
#[derive(Clone, Copy, Drop)]
pub(crate) enum Content<'a> {
    PassedOver,
    Field(&'a [u8], &'a [u8]),
    Unreadable,
}

/// A comment begins with `#`; in a pair the first colon is followed at once by `=`; before the first colon of a field
/// stands its name, and behind it its value, both without the blanks around them.
pub(crate) fn content_of(text: &[u8]) -> Content<'_>
    ensures { content_view result ≡ lines.content text.now }
{
    let colon = colon_in(text);
    if is_comment(text) || is_pair(text, colon) {
        return Content::PassedOver;
    }
    if colon == text.len() {
        return Content::Unreadable;
    }
    let name = trimmed(&text[..colon]);
    if name.is_empty() {
        return Content::Unreadable;
    }
    Content::Field(name, trimmed(&text[colon + 1..]))
}

/// The place of the first colon, or the length where there is none.
fn colon_in(text: &[u8]) -> usize
    ensures within { result ≤ length text.now }
    ensures first { result ≡ position_or_len (nat_eq 58) text.now }
{
    for at in 0..text.len() {
        if text[at] == b':' {
            return at;
        }
    }
    text.len()
}

fn is_comment(text: &[u8]) -> bool
    ensures { result ≡ lines.is_comment text.now }
{
    !text.is_empty() && text[0] == b'#'
}

/// An equals sign follows the first colon.
fn is_pair(text: &[u8], colon: usize) -> bool
    requires within { colon ≤ length text.now }
    requires first { colon ≡ position_or_len (nat_eq 58) text.now }
    ensures { result ≡ lines.is_pair text.now }
{
    colon + 1 < text.len() && text[colon + 1] == b'='
}

/// Space and tab.
pub(crate) fn is_blank(byte: u8) -> bool
    ensures { result ≡ lines.is_blank byte }
{
    byte == b' ' || byte == b'\t'
}

/// The text without the blanks at both ends.
fn trimmed(text: &[u8]) -> &[u8]
    ensures { result.now ≡ lines.trimmed text.now }
{
    trimmed_end(trimmed_start(text))
}

fn trimmed_start(text: &[u8]) -> &[u8]
    ensures { result.now ≡ drop (prefix_len lines.is_blank text.now) text.now }
{
    for at in 0..text.len() {
        if !is_blank(text[at]) {
            return &text[at..];
        }
    }
    &text[text.len()..]
}

fn trimmed_end(text: &[u8]) -> &[u8]
    ensures { result.now ≡ take (length text.now - suffix_len lines.is_blank text.now) text.now }
{
    let mut end = text.len();
    while end > 0 && is_blank(text[end - 1]) {
        end -= 1;
    }
    &text[..end]
}
