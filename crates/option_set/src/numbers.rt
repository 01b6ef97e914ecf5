// Numbers in the values of options.
ghost use Rattle.std.specs.Prelude.{◌≡◌, ◌-◌, ◌^◌, min};
ghost use Rattle.std.specs.List.{list_all};
ghost use Rattle.std.specs.Char.{is_ascii_digit};
ghost use Rattle.std.specs.Option.{option_map};
ghost use Rattle.option_set.specs.Numbers.{has_leading_zero, is_decimal, decimal_value, size_value, truth_value, number_value, saturated};

use crate::Spelling;
use dl_kinds::numeral_value;

const KIB: u64 = 1_024;

const MIB: u64 = 1_048_576;

// Whether a zero stands in front of others.
fn has_leading_zero(text: &[u8]) -> bool
    ensures { result ≡ has_leading_zero text.now }
{
    text.len() > 1 && text[0] == b'0'
}

fn all_digits(text: &[u8]) -> bool
    ensures { result ≡ list_all is_ascii_digit text.now }
{
    text.iter().all(|byte| byte.is_ascii_digit())
}

// Whether these are decimal digits without a zero in front of others.
fn is_decimal(text: &[u8]) -> bool
    ensures { result ≡ is_decimal text.now }
{
    !text.is_empty() && !has_leading_zero(text) && all_digits(text)
}

// A number from 2^64 on is answered as 2^64 - 1, as are those of the functions below.
pub(crate) fn decimal(text: &[u8]) -> Option<u64>
    ensures { result ≡ option_map saturated (decimal_value text.now) }
{
    if !is_decimal(text) {
        return None;
    }
    Some(numeral_value(text).unwrap_or(u64::MAX))
}

fn size(text: &[u8]) -> Option<u64>
    ensures { result ≡ option_map saturated (size_value text.now) }
{
    match text.split_last() {
        Some((b'K' | b'k', digits)) => Some(decimal(digits)?.saturating_mul(KIB)),
        Some((b'M' | b'm', digits)) => Some(decimal(digits)?.saturating_mul(MIB)),
        _ => decimal(text),
    }
}

fn truth(text: &str) -> Option<u64>
    ensures { result ≡ option_map saturated (truth_value text.now) }
{
    if text == "true" {
        return Some(1);
    }
    if text == "false" {
        return Some(0);
    }
    None
}

/// The number that a value spells. One from 2^64 on is answered as 2^64 - 1.
pub(crate) fn number(spelling: Spelling, text: &str) -> Option<u64>
    ensures { result ≡ option_map saturated (number_value spelling text.now) }
{
    match spelling {
        Spelling::Plain => decimal(text.as_bytes()),
        Spelling::Size => size(text.as_bytes()),
        Spelling::Truth => truth(text),
    }
}
