// Ids of downloads, and fronts of them, in texts.
ghost use Rattle.std.specs.Prelude.{◌≡◌, ◌↔◌, ◌≤◌, ◌-◌, ◌/◌, ◌^◌, IsTrue, IsSome, IfSome, SomeIff, length};
ghost use Rattle.std.specs.Str.Parse.{IsNumeral, digits_value};
ghost use Rattle.dl_kinds.specs.Gid.{IsGidText, IsGidKeyText, IsNamed};

use crate::Gid;

/// The hexadecimal digits of a gid.
pub const GID_DIGITS: u8 = 16;

// The number that the text writes in hexadecimal digits of either case, without a sign.
#[tactic(auto, using(crate::proofs::HexNumbers::digits_value_bound))]
fn hex_number(text: &str) -> Option<u64>
    requires { length text.now ≤ 16 }
    ensures { SomeIff result (IsNumeral 16 text.now) (digits_value 16 text.now) }
{
    if text.as_bytes().first() == Some(&b'+') {
        return None;
    }
    u64::from_str_radix(text, 16).ok()
}

impl Gid {
    /// The gid that 16 hexadecimal digits of either case write. None is for any other text, and where all digits are 0.
    pub fn read(text: &str) -> Option<Gid>
        ensures found { IsSome result ↔ IsGidText text.now }
        ensures value { IfSome result (λ gid. gid.0 ≡ digits_value 16 text.now) }
    {
        if text.len() != GID_DIGITS as usize {
            return None;
        }
        match hex_number(text) {
            Some(number) if number != 0 => Some(Gid(number)),
            _ => None,
        }
    }
}

/// The first digits of a gid. It names the gids whose 16 hexadecimal digits begin so.
#[derive(Clone, Copy, Debug, PartialEq, Eq)]
pub struct GidKey {
    /// How many digits, from 1 to 16.
    pub digits: u8,
    /// The number that they write.
    pub value: u64,
}

impl GidKey {
    /// The key that 1 to 16 hexadecimal digits of either case write. None is for any other text.
    pub fn read(text: &str) -> Option<GidKey>
        ensures found { IsSome result ↔ IsGidKeyText text.now }
        ensures digits { IfSome result (λ key. key.digits ≡ length text.now) }
        ensures value { IfSome result (λ key. key.value ≡ digits_value 16 text.now) }
    {
        if text.len() > GID_DIGITS as usize {
            return None;
        }
        let value = hex_number(text)?;
        Some(GidKey {
            digits: text.len() as u8,
            value,
        })
    }

    /// Whether the key names this gid.
    pub fn names(&self, gid: Gid) -> bool
        ensures { IsTrue result ↔ IsNamed self.now.digits self.now.value gid.0 }
    {
        let rest = GID_DIGITS.saturating_sub(self.digits) as u32;
        match 16u64.checked_pow(rest) {
            Some(unit) => gid.0 / unit == self.value,
            None => self.value == 0,
        }
    }
}
