// Integers and strings at the front of bytes.
ghost use Rattle.std.specs.Prelude.{◌≡◌, ℕ, List, ◌-◌, ◌^◌, ◌<◌, length, min, Option, ℤ, pos, neg_ℤ, option_map};
ghost use Rattle.std.specs.Str.Parse.{AllDigits};
ghost use Rattle.bencode_core.specs.Reading as specs;

use dl_kinds::{numeral_len, numeral_value};

/// What begins an integer, a list and a dictionary.
pub(crate) const INTEGER: u8 = b'i';

pub(crate) const LIST: u8 = b'l';

pub(crate) const DICT: u8 = b'd';

/// What ends each of them.
pub(crate) const END: u8 = b'e';

/// What stands between the length of a string and its bytes.
const COLON: u8 = b':';

/// What stands before a number below zero.
const MINUS: u8 = b'-';

/// The digit that no longer number begins with.
const ZERO: u8 = b'0';

/// This byte stands at the front.
pub(crate) fn begins(byte: u8, bytes: &[u8]) -> bool
    ensures { result ≡ specs.begins byte bytes.now }
{
    bytes.first() == Some(&byte)
}

/// How many digits stand at the front.
fn digits_len(bytes: &[u8]) -> usize
    ensures { result ≡ length (specs.digits_at bytes.now) }
{
    numeral_len(bytes)
}

/// The number that digits write without a leading zero. One from 2^64 on is told as the greatest of 64 bits.
fn number_of(digits: &[u8]) -> Option<u64>
    requires { AllDigits 10 digits.now }
    ensures { result ≡ option_map (λ n. min n (2 ^ 64 - 1)) (specs.canonical_number digits.now) }
{
    if digits.is_empty() || digits.len() > 1 && begins(ZERO, digits) {
        return None;
    }
    Some(numeral_value(digits).unwrap_or(u64::MAX))
}

/// A number in decimal and the byte that ends it, and the bytes behind that. A number from 2^64 on is told as the
/// greatest of 64 bits.
#[tactic(auto, using(crate::proofs::Numbers::take_digits), unfolding(crate::specs::Reading::number_at))]
fn number_at(end: u8, bytes: &[u8]) -> Option<(u64, &[u8])>
    ensures { option_map {U = ℕ × List ℕ} (λ n. (n.0, n.1.now)) result
        ≡ specs.capped_number (specs.number_at end bytes.now) }
{
    let (digits, behind) = bytes.split_at(digits_len(bytes));
    if !begins(end, behind) {
        return None;
    }
    let number = number_of(digits)?;
    Some((number, &behind[1..]))
}

/// The number, if it has 64 bits with its sign.
fn above_zero(number: u64) -> Option<i64>
    ensures { result ≡ specs.narrowed (pos number) }
{
    i64::try_from(number).ok()
}

/// The number below zero, if it has 64 bits with its sign.
fn below_zero(number: u64) -> Option<i64>
    ensures { result ≡ specs.narrowed (neg_ℤ (pos number)) }
{
    0i64.checked_sub_unsigned(number)
}

/// The integer at the front and the bytes behind it. The integer is None where it has more than 64 bits.
#[tactic(auto, unfolding(crate::specs::Reading::integer_at))]
pub(crate) fn integer_at(bytes: &[u8]) -> Option<(Option<i64>, &[u8])>
    ensures { option_map {U = Option ℤ × List ℕ} (λ n. (n.0, n.1.now)) result
        ≡ specs.narrowed_integer (specs.integer_at bytes.now) }
{
    let signed = bytes.get(1..)?;
    if begins(MINUS, signed) {
        let (number, rest) = number_at(END, &signed[1..])?;
        if number == 0 {
            return None;
        }
        return Some((below_zero(number), rest));
    }
    let (number, rest) = number_at(END, signed)?;
    Some((above_zero(number), rest))
}

/// The string at the front and the bytes behind it.
#[tactic(auto, unfolding(crate::specs::Reading::string_at))]
pub(crate) fn string_at(bytes: &[u8]) -> Option<(&[u8], &[u8])>
    requires { length bytes.now < 2 ^ 32 }
    ensures { option_map {U = List ℕ × List ℕ} (λ s. (s.0.now, s.1.now)) result
        ≡ specs.string_at bytes.now }
{
    let (len, rest) = number_at(COLON, bytes)?;
    if (rest.len() as u64) < len {
        return None;
    }
    Some(rest.split_at(len as usize))
}
