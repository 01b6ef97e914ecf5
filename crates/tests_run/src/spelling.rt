// Bytes that are written as text.
use percent_encoding::percent_decode;
use std::alloc::Global;
use std::test::Fail;

/// The SHA-1 digest of `hello`, as `$` stands for it.
const DIGEST: &str = "%aa%f4%c6%1d%dc%c5%e8%a2%da%be%de%0f%3b%48%2c%d9%ae%a9%43%4d";

/// The bytes that a text spells: `$` is the digest of `hello`, `|` the end of a line of HTTP, and `%` and two digits a
/// byte.
pub fn spelled(alloc: Global, text: &str) -> Result<Vec<u8>, Fail> {
    let text = text.replace(alloc, '$', DIGEST)?;
    let text = text.replace(alloc, '|', "\r\n")?;
    let mut bytes = Vec::new(alloc);
    percent_decode(text.as_bytes()).append_to(&mut bytes)?;
    Ok(bytes)
}

/// The bytes that parts spell, between which `+` stands: `3*ab` is three times `ab`.
pub fn content(alloc: Global, parts: &str) -> Result<Vec<u8>, Fail> {
    let mut bytes = Vec::new(alloc);
    for part in parts.split('+') {
        let (count, unit) = part.split_once('*').unwrap_or(("1", part));
        let many = spelled(alloc, unit)?.repeat(alloc, count.parse::<usize>()?)?;
        bytes.extend_from_slice(&many)?;
    }
    Ok(bytes)
}
