// Bytes that are written as text.
use percent_encoding::{AsciiSet, CONTROLS, ascii_set, percent_encode};
use std::alloc::{AllocError, Global};
use test_lines::Output;

// What is shown as `%` and two digits.
const HIDDEN: AsciiSet = ascii_set!(CONTROLS.add(b'%').add(b'|'));

/// The bytes that parts spell, where `|` is the end of a line, CR and LF.
pub fn spelled(alloc: Global, parts: &str) -> Vec<u8> {
    match parts.replace(alloc, '|', "%0D%0A") {
        Ok(parts) => test_lines::spelled(alloc, parts.as_str()),
        Err(_) => Vec::new(alloc),
    }
}

fn shown(alloc: Global, bytes: &[u8]) -> Result<String, AllocError> {
    let mut text = String::new(alloc);
    percent_encode(bytes, HIDDEN).append_to(&mut text)?;
    text.replace(alloc, "%0D%0A", "|")
}

/// Adds bytes as they are spelled.
pub fn add_shown(alloc: Global, bytes: &[u8], output: &mut Output) {
    match shown(alloc, bytes) {
        Ok(text) => output.text(text.as_str()),
        Err(_) => output.text("out of memory"),
    }
}
