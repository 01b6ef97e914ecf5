// The length of the content of a request.
ghost use Rattle.std.specs.Prelude.{◌≡◌};
ghost use Rattle.std.specs.Char.{is_ascii_digit};
ghost use Rattle.std.specs.List.{list_all};
ghost use Rattle.http_heads.specs.Content.{are_digits, digits_number, content_length_by, content_length};

use crate::AskHead;
use crate::fields::sole_field;
use dl_kinds::numeral_value;

/// What a request tells of the length of its content.
#[derive(Clone, Copy, Debug, PartialEq, Eq)]
pub enum ContentLength {
    /// So many bytes, by one field.
    Bytes(u64),
    /// One field writes a number from 2^64 on.
    Beyond,
    /// No field, several, or one that writes no number in digits alone.
    Unclear,
}

fn all_digits(text: &[u8]) -> bool
    ensures { result ≡ list_all is_ascii_digit text.now }
{
    text.iter().all(|byte| byte.is_ascii_digit())
}

fn are_digits(text: &[u8]) -> bool
    ensures { result ≡ are_digits text.now }
{
    !text.is_empty() && all_digits(text)
}

fn length_in(text: &[u8]) -> ContentLength
    ensures { result ≡ content_length_by (digits_number text.now) }
{
    if !are_digits(text) {
        return ContentLength::Unclear;
    }
    match numeral_value(text) {
        Some(number) => ContentLength::Bytes(number),
        None => ContentLength::Beyond,
    }
}

/// The length of the content that the head tells.
pub fn content_length(head: &AskHead) -> ContentLength
    ensures { result ≡ content_length head.now }
{
    match sole_field(&head.fields, "content-length") {
        Some(text) => length_in(text),
        None => ContentLength::Unclear,
    }
}
