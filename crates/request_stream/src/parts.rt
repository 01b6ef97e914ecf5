// The parts of a request's head, byte by byte.
ghost use Rattle.std.specs.Prelude.{◌≡◌, ◌+◌, ◌<◌, ◌≤◌, length, slice_index, take, IfSome};
ghost use Rattle.request_stream.specs.HeadParts.{EndsIn, LeadsOn};

use httparse::{is_header_name_token, is_header_value_token, is_method_token, is_uri_token};

/// What the front of a head ends in.
#[derive(Clone, Copy, Debug, PartialEq, Eq)]
pub enum HeadPart {
    /// Empty lines, or nothing.
    EmptyLines,
    /// The carriage return of an empty line before the head.
    CutEmptyLine,
    Method,
    /// The target, which begins at this place.
    Target { from: usize },
    /// So many bytes of the version.
    Version { count: usize },
    /// The request line, without its end.
    RequestLine,
    /// The carriage return of a line that isn't empty.
    CutLine,
    /// Whole lines: the request line and fields.
    Lines,
    FieldName,
    FieldValue,
    /// The carriage return behind all lines.
    CutHead,
}

// The version without its last digit.
const VERSION: [u8; 7] = *b"HTTP/1.";

fn behind_empty_lines(end: usize, byte: u8) -> Option<HeadPart>
    ensures { IfSome result (LeadsOn HeadPart.EmptyLines end byte) }
{
    if byte == b'\r' {
        return Some(HeadPart::CutEmptyLine);
    }
    if byte == b'\n' {
        return Some(HeadPart::EmptyLines);
    }
    if is_method_token(byte) {
        Some(HeadPart::Method)
    } else {
        None
    }
}

fn behind_cut_empty_line(end: usize, byte: u8) -> Option<HeadPart>
    ensures { IfSome result (LeadsOn HeadPart.CutEmptyLine end byte) }
{
    if byte == b'\n' {
        Some(HeadPart::EmptyLines)
    } else {
        None
    }
}

fn behind_method(end: usize, byte: u8) -> Option<HeadPart>
    ensures { IfSome result (LeadsOn HeadPart.Method end byte) }
{
    if byte == b' ' {
        return Some(HeadPart::Target { from: end });
    }
    if is_method_token(byte) {
        Some(HeadPart::Method)
    } else {
        None
    }
}

fn in_target(from: usize, end: usize, byte: u8) -> Option<HeadPart>
    ensures { IfSome result (LeadsOn (HeadPart.Target from) end byte) }
{
    if is_uri_token(byte) {
        Some(HeadPart::Target { from })
    } else {
        None
    }
}

fn in_version(count: usize, end: usize, byte: u8) -> Option<HeadPart>
    ensures { IfSome result (LeadsOn (HeadPart.Version count) end byte) }
{
    if count >= VERSION.len() {
        return behind_version(count, end, byte);
    }
    if byte == VERSION[count] {
        Some(HeadPart::Version { count: count + 1 })
    } else {
        None
    }
}

// The last digit of the version.
fn behind_version(count: usize, end: usize, byte: u8) -> Option<HeadPart>
    requires { 7 ≤ count }
    ensures { IfSome result (LeadsOn (HeadPart.Version count) end byte) }
{
    if byte == b'0' || byte == b'1' {
        Some(HeadPart::RequestLine)
    } else {
        None
    }
}

fn behind_request_line(end: usize, byte: u8) -> Option<HeadPart>
    ensures { IfSome result (LeadsOn HeadPart.RequestLine end byte) }
{
    if byte == b'\r' {
        return Some(HeadPart::CutLine);
    }
    if byte == b'\n' {
        Some(HeadPart::Lines)
    } else {
        None
    }
}

fn behind_cut_line(end: usize, byte: u8) -> Option<HeadPart>
    ensures { IfSome result (LeadsOn HeadPart.CutLine end byte) }
{
    if byte == b'\n' {
        Some(HeadPart::Lines)
    } else {
        None
    }
}

fn behind_lines(end: usize, byte: u8) -> Option<HeadPart>
    ensures { IfSome result (LeadsOn HeadPart.Lines end byte) }
{
    if byte == b'\r' {
        return Some(HeadPart::CutHead);
    }
    if is_header_name_token(byte) {
        Some(HeadPart::FieldName)
    } else {
        None
    }
}

fn behind_field_name(end: usize, byte: u8) -> Option<HeadPart>
    ensures { IfSome result (LeadsOn HeadPart.FieldName end byte) }
{
    if byte == b':' {
        return Some(HeadPart::FieldValue);
    }
    if is_header_name_token(byte) {
        Some(HeadPart::FieldName)
    } else {
        None
    }
}

fn behind_field_value(end: usize, byte: u8) -> Option<HeadPart>
    ensures { IfSome result (LeadsOn HeadPart.FieldValue end byte) }
{
    if is_header_value_token(byte) {
        return Some(HeadPart::FieldValue);
    }
    if byte == b'\r' {
        return Some(HeadPart::CutLine);
    }
    if byte == b'\n' {
        Some(HeadPart::Lines)
    } else {
        None
    }
}

// The part that the byte leads to, which ends at the place, where it leads to one.
fn next_part(part: HeadPart, end: usize, byte: u8) -> Option<HeadPart>
    ensures { IfSome result (LeadsOn part end byte) }
{
    match part {
        HeadPart::EmptyLines => behind_empty_lines(end, byte),
        HeadPart::CutEmptyLine => behind_cut_empty_line(end, byte),
        HeadPart::Method => behind_method(end, byte),
        HeadPart::Target { from } => in_target(from, end, byte),
        HeadPart::Version { count } => in_version(count, end, byte),
        HeadPart::RequestLine => behind_request_line(end, byte),
        HeadPart::CutLine => behind_cut_line(end, byte),
        HeadPart::Lines => behind_lines(end, byte),
        HeadPart::FieldName => behind_field_name(end, byte),
        HeadPart::FieldValue => behind_field_value(end, byte),
        HeadPart::CutHead => None,
    }
}

// The space behind a target, which has to be text.
fn behind_target(bytes: &[u8], from: usize, at: usize) -> Option<HeadPart>
    requires inside { at < length bytes.now }
    requires space { slice_index bytes.now at ≡ 32 }
    requires ends { EndsIn (HeadPart.Target from) (take at bytes.now) }
    ensures { IfSome result (λ next. EndsIn next (take (at + 1) bytes.now)) }
{
    if from >= at {
        return None;
    }
    match std::str::from_utf8(&bytes[from..at]) {
        Ok(_) => Some(HeadPart::Version { count: 0 }),
        Err(_) => None,
    }
}

fn part_behind(part: HeadPart, bytes: &[u8], at: usize) -> Option<HeadPart>
    requires inside { at < length bytes.now }
    requires ends { EndsIn part (take at bytes.now) }
    ensures { IfSome result (λ next. EndsIn next (take (at + 1) bytes.now)) }
{
    let byte = bytes[at];
    match part {
        HeadPart::Target { from } if byte == b' ' => behind_target(bytes, from, at),
        _ => next_part(part, at + 1, byte),
    }
}

/// What the bytes end in, by what the first `read` of them end in, where they are known to be the front of a head.
pub(crate) fn last_part(bytes: &[u8], read: usize, part: HeadPart) -> Option<HeadPart>
    requires within { read ≤ length bytes.now }
    requires ends { EndsIn part (take read bytes.now) }
    ensures { IfSome result (λ last. EndsIn last bytes.now) }
{
    let mut last = part;
    for at in read..bytes.len() {
        last = part_behind(last, bytes, at)?;
    }
    Some(last)
}
