// Single bits of bytes.
ghost use Rattle.std.specs.Prelude.{◌≡◌, ◌↔◌, ◌<◌, ◌≤◌, ◌^◌, ◌*◌, ℕ, true, false, length, Some, slice_get, slice_set, count_by, IsTrue, Contains};
ghost use Rattle.bit_rows.specs.Row.{bits_of, spare_bits};

/// The bit at this place of the bytes.
pub fn bit(bytes: &[u8], at: usize) -> bool
    requires { at < 8 * length bytes.now }
    ensures { slice_get (bits_of bytes.now) at ≡ Some result }
{
    bytes[at / 8] >> (7 - at % 8) & 1 == 1
}

/// Makes the bit at this place true.
pub fn set_bit(bytes: &mut [u8], at: usize)
    requires { at < 8 * length bytes.old }
    ensures { bits_of bytes.new ≡ slice_set (bits_of bytes.old) at true }
{
    bytes[at / 8] |= 1 << (7 - at % 8);
}

/// Makes the bit at this place false.
pub fn clear_bit(bytes: &mut [u8], at: usize)
    requires { at < 8 * length bytes.old }
    ensures { bits_of bytes.new ≡ slice_set (bits_of bytes.old) at false }
{
    bytes[at / 8] &= !(1 << (7 - at % 8));
}

/// How many of the bits are true.
pub fn count_set(bytes: &[u8]) -> u32
    requires { count_by (λ bit. bit) (bits_of bytes.now) < 2 ^ 32 }
    ensures { result ≡ count_by (λ bit. bit) (bits_of bytes.now) }
{
    let mut ones = 0;
    for byte in bytes {
        ones += byte.count_ones();
    }
    ones
}

/// Whether a bit from this place on is true.
pub fn is_any_set(bytes: &[u8], from: usize) -> bool
    requires { length bytes.now < 2 ^ 32 }
    ensures { IsTrue result ↔ Contains (spare_bits from bytes.now) true }
{
    for at in from..8 * bytes.len() {
        if bit(bytes, at) {
            return true;
        }
    }
    false
}
