// Texts that are written in parts.
use percent_encoding::percent_decode;
use std::alloc::{AllocError, Global};

// Adds what a part spells.
fn add_part(alloc: Global, bytes: &mut Vec<u8>, count: u64, unit: &str) -> Result<(), AllocError> {
    let mut once = Vec::new(alloc);
    percent_decode(unit.as_bytes()).append_to(&mut once)?;
    bytes.extend_from_slice(&once.repeat(alloc, count as usize)?)
}

fn add_parts(alloc: Global, bytes: &mut Vec<u8>, parts: &str) -> Result<(), AllocError> {
    for part in parts.split('+') {
        match part.split_once('*') {
            Some((count, unit)) => add_part(alloc, bytes, crate::words::number(count), unit)?,
            None => add_part(alloc, bytes, 1, part)?,
        }
    }
    Ok(())
}

/// The bytes that parts spell, between which `+` stands: `3*ab` is three times `ab`, and `%` with two digits a byte. None where
/// memory is wanting.
pub fn spelled(alloc: Global, parts: &str) -> Vec<u8> {
    let mut bytes = Vec::new(alloc);
    if add_parts(alloc, &mut bytes, parts).is_err() {
        bytes.clear();
    }
    bytes
}

/// The text that parts spell; empty where they spell none in UTF-8.
pub fn spelled_text(alloc: Global, parts: &str) -> String {
    let bytes = spelled(alloc, parts);
    let mut text = String::new(alloc);
    if text.push_str(str::from_utf8(&bytes).unwrap_or("")).is_err() {
        text.clear();
    }
    text
}
