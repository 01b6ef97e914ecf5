// Decimal numbers in bytes.
ghost use Rattle.std.specs.Prelude.{◌≡◌, ◌≤◌, ◌<◌, ◌^◌, length, take, drop, SomeIff};
ghost use Rattle.std.specs.Str.Parse.{AllDigits, IsNumeral, digits_value};
ghost use Rattle.dl_kinds.specs.Decimal.{BeginsWithDigit};

/// How many ASCII digits stand at the front.
pub fn numeral_len(bytes: &[u8]) -> usize
    ensures within { result ≤ length bytes.now }
    ensures digits { AllDigits 10 (take result bytes.now) }
    ensures stops { BeginsWithDigit (drop result bytes.now) → ⊥ }
{
    for (count, byte) in bytes.iter().enumerate() {
        if !byte.is_ascii_digit() {
            return count;
        }
    }
    bytes.len()
}

/// The number that the bytes write in decimal digits, with nothing before or behind them. Leading zeros are
/// taken. None is for other bytes, and for a number from 2^64 on.
pub fn numeral_value(bytes: &[u8]) -> Option<u64>
    ensures { SomeIff result (IsNumeral 10 bytes.now
        × (digits_value 10 bytes.now < 2 ^ 64)) (digits_value 10 bytes.now) }
{
    if bytes.first() == Some(&b'+') {
        return None;
    }
    match std::str::from_utf8(bytes) {
        Ok(text) => text.parse().ok(),
        Err(_) => None,
    }
}
