// The address of a data connection.
ghost use Rattle.std.specs.Prelude.{◌↔◌, ◌<◌, ◌≤◌, ℕ, List, IfSome, IfNone, IsTrue};
ghost use Rattle.std.specs.Char.{digit_value};
ghost use Rattle.ftp_replies.specs.Addresses.{HasLeadingZero, IsNumberBefore, IsAddress, TellsPort};

use crate::front::begins;
use dl_kinds::{numeral_len, numeral_value};

fn has_leading_zero(digits: &[u8]) -> bool
    ensures { IsTrue result ↔ HasLeadingZero digits.now }
{
    digits.len() > 1 && digits[0] == b'0'
}

// A number of at most 255 at the front, behind which the end stands, and what stands behind the end.
fn number_before(end: u8, bytes: &[u8]) -> Option<(u8, &[u8])>
    requires { 10 ≤ digit_value end }
    ensures some { IfSome result (λ found. IsNumberBefore end bytes.now found.0 found.1.now) }
    ensures none { IfNone result ((number : ℕ) (rest : List ℕ)
        → IsNumberBefore end bytes.now number rest → ⊥) }
{
    let (digits, behind) = bytes.split_at(numeral_len(bytes));
    if !begins(behind, &[end]) || has_leading_zero(digits) {
        return None;
    }
    let Some(number) = numeral_value(digits) else {
        return None;
    };
    if number > 255 {
        return None;
    }
    Some((number as u8, &behind[1..]))
}

// The numbers of the port, of an address at the front.
fn address_at(bytes: &[u8]) -> Option<(u8, u8)>
    ensures some { IfSome result (λ port. IsAddress bytes.now port.0 port.1) }
    ensures none { IfNone result ((high low : ℕ) → IsAddress bytes.now high low → ⊥) }
{
    if !begins(bytes, b"(") {
        return None;
    }
    let (_, rest) = number_before(b',', &bytes[1..])?;
    let (_, rest) = number_before(b',', rest)?;
    let (_, rest) = number_before(b',', rest)?;
    let (_, rest) = number_before(b',', rest)?;
    let (high, rest) = number_before(b',', rest)?;
    let (low, _) = number_before(b')', rest)?;
    Some((high, low))
}

/// The port of the first address in the last line of a reply to PASV, if it isn't 0.
pub fn passive_port(line: &[u8]) -> Option<u16>
    ensures some { IfSome result (λ port. (0 < port) × TellsPort line.now port) }
    ensures none { IfNone result ((port : ℕ) → 0 < port → TellsPort line.now port → ⊥) }
{
    for at in 0..line.len() {
        if let Some((high, low)) = address_at(&line[at..]) {
            let port = u16::from(high) * 256 + u16::from(low);
            return if port == 0 { None } else { Some(port) };
        }
    }
    None
}
