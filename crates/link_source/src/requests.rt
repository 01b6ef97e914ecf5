// Requests as a mirror reads them.
ghost use Rattle.std.specs.Prelude.{◌≡◌, ◌≢◌, ◌<◌, ◌≤◌, ◌^◌, ℕ, List, Contains, IfOk, MatchOption, string_bytes};
ghost use Rattle.std.specs.Char.{digit_value};
ghost use Rattle.std.specs.Fmt.{decimal};
ghost use Rattle.link_source.specs.Endpoint.{host_value};
ghost use Rattle.link_source.specs.Reading.{between_of, IsSplitAt, EndsInNumber, EndsInNone, IsSpelled, SpellsNone};
ghost use Rattle.link_source.specs.Requests.{Asks};

use crate::endpoint::host_field;
use dl_kinds::numeral_value;
use std::alloc::{AllocError, Global};

/// What a request asks for: the bytes from first to last of a target.
#[derive(Drop)]
pub struct Asked<'a> {
    pub target: &'a [u8],
    pub first: u64,
    pub last: u64,
}

// The number that the bytes write without a leading zero.
fn plain_number(digits: &[u8]) -> Option<u64>
    ensures { MatchOption result ((n : ℕ) → n < 2 ^ 64 → digits.now ≢ decimal n)
        (λ n. digits.now ≡ decimal n) }
{
    if digits.len() > 1 && digits[0] == b'0' {
        return None;
    }
    numeral_value(digits)
}

// What stands before the last mark, and behind it.
fn split_last(bytes: &[u8], mark: u8) -> Option<(&[u8], &[u8])>
    ensures { MatchOption result (Contains bytes.now mark → ⊥)
        (λ parts. IsSplitAt mark bytes.now parts.0.now parts.1.now) }
{
    let place = bytes.iter().rposition(|byte| *byte == mark)?;
    Some((&bytes[..place], &bytes[place + 1..]))
}

// What stands before the last mark, and the number behind it.
fn split_number(bytes: &[u8], mark: u8) -> Option<(&[u8], u64)>
    requires { 10 ≤ digit_value mark }
    ensures { MatchOption result (EndsInNone mark bytes.now)
        (λ parts. EndsInNumber mark bytes.now parts.0.now parts.1) }
{
    let (front, digits) = split_last(bytes, mark)?;
    let number = plain_number(digits)?;
    Some((front, number))
}

// The parts of a request that has this between its target and its numbers.
fn split_request<'a>(between: &[u8], bytes: &'a [u8]) -> Option<Asked<'a>>
    ensures { MatchOption result (SpellsNone between.now bytes.now)
        (λ asked. IsSpelled between.now bytes.now asked.target.now asked.first asked.last) }
{
    let lines = bytes.strip_suffix(b"\r\n\r\n")?;
    let (front, last) = split_number(lines, b'-')?;
    let (front, first) = split_number(front, b'=')?;
    let target = front.strip_suffix(between)?.strip_prefix(b"GET ")?;
    Some(Asked {
        target,
        first,
        last,
    })
}

// What stands between the target and the numbers of a request.
#[tactic(auto, unfolding(crate::specs::Reading::between_of))]
fn between(alloc: Global, host: &str, port: u16) -> Result<String, AllocError>
    ensures { IfOk result (λ text. string_bytes text ≡ between_of (host_value host.now port)) }
{
    let host = host_field(alloc, host, port)?;
    format!(in alloc;
        " HTTP/1.1\r\nHost: {host}\r\nUser-Agent: aria_cli\r\nAccept: */*\r\nAccept-Encoding: identity\r\nRange: bytes"
    )
}

// What bytes ask of a host and a port, if they are a request.
pub fn read_request<'a>(
    alloc: Global,
    host: &str,
    port: u16,
    bytes: &'a [u8],
) -> Result<Option<Asked<'a>>, AllocError>
    ensures { IfOk result (λ read. MatchOption read
        ((target : List ℕ) (first last : ℕ) → Asks host.now port target first last bytes.now → ⊥)
        (λ asked. Asks host.now port asked.target.now asked.first asked.last bytes.now)) }
{
    let between = between(alloc, host, port)?;
    match split_request(between.as_bytes(), bytes) {
        Some(asked) if asked.first <= asked.last => Ok(Some(asked)),
        _ => Ok(None),
    }
}
