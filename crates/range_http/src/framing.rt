// How long the content of a reply is.
ghost use Rattle.std.specs.Prelude.{◌≡◌, codes};
ghost use Rattle.std.specs.List.{list_all};
ghost use Rattle.range_http.specs.Fields.{values_of};
ghost use Rattle.range_http.specs.Framing.{is_word, is_number_text, length_framing, framing_of};

use crate::range::read_number;
use http_header::{HeaderValue, ValueIter};
use http_heads::Head;

/// How long the content of a reply is.
#[derive(Clone, Copy, Debug, PartialEq, Eq)]
pub enum Framing {
    /// So many bytes.
    Length(u64),
    /// In chunks, up to the last one.
    Chunked,
    /// Up to the end of the stream.
    ToEnd,
}

fn writes(text: &[u8], number: u64) -> bool
    ensures { result ≡ is_number_text number text.now }
{
    read_number(text) == Some(number)
}

fn is_word(text: &[u8], word: &[u8]) -> bool
    ensures { result ≡ is_word word.now text.now }
{
    text.eq_ignore_ascii_case(word)
}

/// Whether each value is the word, in any case.
pub(crate) fn all_words(mut values: ValueIter<'_, HeaderValue>, word: &[u8]) -> bool
    ensures { result ≡ list_all (λ value. is_word word.now value.bytes) values.entry }
{
    values.all(|value| is_word(value.as_bytes(), word))
}

fn all_write(mut values: ValueIter<'_, HeaderValue>, number: u64) -> bool
    ensures { result ≡ list_all (λ value. is_number_text number value.bytes) values.entry }
{
    values.all(|value| writes(value.as_bytes(), number))
}

fn length_of(head: &Head) -> Option<Framing>
    ensures { result ≡ length_framing (values_of head.now (codes "content-length")) }
{
    let mut values = head.fields.get_all("content-length").iter();
    let Some(first) = values.next() else {
        return Some(Framing::ToEnd);
    };
    let number = read_number(first.as_bytes())?;
    if all_write(values, number) {
        Some(Framing::Length(number))
    } else {
        None
    }
}

/// The framing that the head tells. None is for codings other than `chunked` alone, and for lengths that aren't one
/// number.
pub(crate) fn framing_of(head: &Head) -> Option<Framing>
    ensures { result ≡ framing_of head.now }
{
    let mut codings = head.fields.get_all("transfer-encoding").iter();
    let Some(coding) = codings.next() else {
        return length_of(head);
    };
    if codings.next().is_none() && is_word(coding.as_bytes(), b"chunked") {
        Some(Framing::Chunked)
    } else {
        None
    }
}
