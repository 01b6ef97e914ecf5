// The field Range of a request.
ghost use Rattle.std.specs.Prelude.{◌≡◌, ◌<◌, ◌==◌, length, position, option_map, option_copied, IfSome};
ghost use Rattle.range_http.specs.Range.{number_of, parts_at};
ghost use Rattle.origin_replies.specs.Spans as specs;

use dl_kinds::numeral_value;

/// Numbers from here on are no ends of a range.
pub const END_LIMIT: u64 = 1 << 63;

/// What stands between the ends of a range.
pub const DASH: u8 = b'-';

/// Which bytes of a file a reply is of.
#[derive(Clone, Copy, Debug, PartialEq, Eq)]
pub enum Span {
    All,
    /// From the first byte to the last one, both among them.
    Part { first: u64, last: u64 },
    /// A range was asked for that has no byte of the file.
    Outside,
}

/// A range of bytes, as it is asked for.
#[derive(Clone, Copy, Debug, PartialEq, Eq)]
pub(crate) enum ByteRange {
    /// From a byte to a byte, both among them.
    Between(u64, u64),
    /// From a byte on.
    From(u64),
    /// So many bytes at the end.
    Last(u64),
}

fn read_end(text: &[u8]) -> Option<u64>
    ensures { result ≡ number_of text.now }
{
    let number = numeral_value(text)?;
    if number < END_LIMIT {
        Some(number)
    } else {
        None
    }
}

fn place_of_dash(text: &[u8]) -> Option<usize>
    ensures place { result ≡ position (λ byte. byte == DASH) text.now }
    ensures within { IfSome result (λ place. place < length text.now) }
{
    text.iter().position(|byte| *byte == DASH)
}

// The texts before and behind the first dash.
fn cut_at_dash(text: &[u8]) -> Option<(&[u8], &[u8])>
    ensures { option_map (λ ends. (ends.0.now, ends.1.now)) result ≡ parts_at DASH text.now }
{
    let place = place_of_dash(text)?;
    Some((&text[..place], &text[place + 1..]))
}

fn read_between(first: &[u8], last: &[u8]) -> Option<ByteRange>
    ensures { result ≡ specs.range_between first.now last.now }
{
    let first = read_end(first)?;
    let last = read_end(last)?;
    if first <= last {
        Some(ByteRange::Between(first, last))
    } else {
        None
    }
}

fn read_by_ends(first: &[u8], last: &[u8]) -> Option<ByteRange>
    ensures { result ≡ specs.range_by_ends first.now last.now }
{
    if first.is_empty() {
        return read_end(last).map(ByteRange::Last);
    }
    if last.is_empty() {
        return read_end(first).map(ByteRange::From);
    }
    read_between(first, last)
}

fn read_behind_unit(text: &[u8]) -> Option<ByteRange>
    ensures { result ≡ specs.range_behind_unit text.now }
{
    let (first, last) = cut_at_dash(text)?;
    read_by_ends(first, last)
}

fn read_byte_range(text: &[u8]) -> Option<ByteRange>
    ensures { result ≡ specs.byte_range_of text.now }
{
    text.strip_prefix(b"bytes=").and_then(read_behind_unit)
}

fn part_from(first: u64, last: u64, length: u64) -> Span
    ensures { result ≡ specs.part_from first last length }
{
    if first < length {
        Span::Part {
            first,
            last: last.min(length - 1),
        }
    } else {
        Span::Outside
    }
}

fn part_at_end(count: u64, length: u64) -> Span
    ensures { result ≡ specs.part_at_end count length }
{
    if count == 0 || length == 0 {
        Span::Outside
    } else {
        Span::Part {
            first: length.saturating_sub(count),
            last: length - 1,
        }
    }
}

fn span_by(range: ByteRange, length: u64) -> Span
    ensures { result ≡ specs.span_by range length }
{
    match range {
        ByteRange::Between(first, last) => part_from(first, last, length),
        ByteRange::From(first) => part_from(first, length, length),
        ByteRange::Last(count) => part_at_end(count, length),
    }
}

/// Which bytes of a file of this length are asked for by the value of the field Range. One range of bytes is taken whose
/// ends are decimal numbers below 2^63. Without the field, and with another text in it, all of the file is.
pub fn span_of(range: Option<&[u8]>, length: u64) -> Span
    ensures { result ≡ specs.span_of (option_copied range.entry) length }
{
    match range.and_then(read_byte_range) {
        Some(range) => span_by(range, length),
        None => Span::All,
    }
}
