// The field Content-Range.
ghost use Rattle.std.specs.Prelude.{◌≡◌, ◌↔◌, ◌<◌, ◌==◌, length, position, option_map, IfSome};
ghost use Rattle.range_http.specs.Range.{number_of, parts_at, starred, span_of, is_range, unitless_range_of, range_of, IsContentRange};

use dl_kinds::numeral_value;

/// Numbers from here on are refused.
pub const NUMBER_LIMIT: u64 = 1 << 63;

/// What stands between the ends of a span.
pub const DASH: u8 = b'-';

/// What stands between the span and the length of the whole resource.
pub const SLASH: u8 = b'/';

/// What a Content-Range says: the first and the last byte of the part that follows, and the length of the whole
/// resource. None stands for a star.
#[derive(Clone, Copy, Debug, PartialEq, Eq)]
pub struct ContentRange {
    pub span: Option<(u64, u64)>,
    pub total: Option<u64>,
}

/// The number below 2^63 that the text writes in decimal digits. Leading zeros are taken.
pub(crate) fn read_number(text: &[u8]) -> Option<u64>
    ensures { result ≡ number_of text.now }
{
    let number = numeral_value(text)?;
    if number < NUMBER_LIMIT {
        Some(number)
    } else {
        None
    }
}

fn place_of(text: &[u8], mark: u8) -> Option<usize>
    ensures place { result ≡ position (λ byte. byte == mark) text.now }
    ensures within { IfSome result (λ place. place < length text.now) }
{
    text.iter().position(|byte| *byte == mark)
}

// The parts before and behind the first such byte.
fn cut_at(text: &[u8], mark: u8) -> Option<(&[u8], &[u8])>
    ensures { option_map (λ parts. (parts.0.now, parts.1.now)) result ≡ parts_at mark text.now }
{
    let place = place_of(text, mark)?;
    Some((&text[..place], &text[place + 1..]))
}

fn read_span(text: &[u8]) -> Option<Option<(u64, u64)>>
    ensures { result ≡ starred span_of text.now }
{
    if text == b"*".as_slice() {
        return Some(None);
    }
    let (first, last) = cut_at(text, DASH)?;
    let first = read_number(first)?;
    let last = read_number(last)?;
    if first <= last {
        Some(Some((first, last)))
    } else {
        None
    }
}

fn read_total(text: &[u8]) -> Option<Option<u64>>
    ensures { result ≡ starred number_of text.now }
{
    if text == b"*".as_slice() {
        return Some(None);
    }
    Some(Some(read_number(text)?))
}

fn fits(span: Option<(u64, u64)>, total: Option<u64>) -> bool
    ensures { result ≡ is_range span total }
{
    match (span, total) {
        (None, None) => false,
        (Some((_, last)), Some(total)) => last < total,
        _ => true,
    }
}

// What stands behind the unit.
fn read_unitless(text: &[u8]) -> Option<ContentRange>
    ensures { result ≡ unitless_range_of text.now }
{
    let (span, total) = cut_at(text, SLASH)?;
    let span = read_span(span)?;
    let total = read_total(total)?;
    if fits(span, total) {
        Some(ContentRange { span, total })
    } else {
        None
    }
}

/// Reads the value of a Content-Range: `bytes 0-4/5`, `bytes 0-4/*` or `bytes */5`. None is for any other text, for a
/// span that ends before it begins, and for one that reaches past the length.
pub fn read_range(text: &[u8]) -> Option<ContentRange>
    ensures exact { (range : ContentRange) → (result ≡ Some range) ↔ IsContentRange text.now range }
    ensures value { result ≡ range_of text.now }
{
    text.strip_prefix(b"bytes ").and_then(read_unitless)
}
