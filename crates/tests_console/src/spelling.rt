// Bytes that are written as text.
use anyhow::{Context, Result};
use percent_encoding::{CONTROLS, percent_decode, percent_encode};
use std::alloc::Global;

/// Letters that come so often one after another are counted where text is shown.
const MANY: usize = 100;

/// The bytes that a text spells: `|` is the end of a line of HTTP, and `%` with two digits a byte.
pub fn spelled(alloc: Global, text: &str) -> Result<Vec<u8>> {
    let text = text.replace(alloc, '|', "\r\n")?;
    let mut bytes = Vec::new(alloc);
    percent_decode(text.as_bytes()).append_to(&mut bytes)?;
    Ok(bytes)
}

/// The bytes that parts spell, between which `+` stands: `3*ab` is three times `ab`.
pub fn repeated(alloc: Global, parts: &str) -> Result<Vec<u8>> {
    let mut bytes = Vec::new(alloc);
    for part in parts.split('+') {
        let (count, unit) = part.split_once('*').unwrap_or(("1", part));
        let many = spelled(alloc, unit)?.repeat(alloc, count.parse::<usize>()?)?;
        bytes.extend_from_slice(&many)?;
    }
    Ok(bytes)
}

/// The text that parts spell.
pub fn repeated_text(alloc: Global, parts: &str) -> Result<String> {
    let bytes = repeated(alloc, parts)?;
    let text = str::from_utf8(&bytes).ok().context("a text is wanted")?;
    Ok(String::from_str(alloc, text)?)
}

// Adds a letter that comes so often.
fn push_letters(shown: &mut String, letter: char, count: usize) -> Result<()> {
    if count < MANY {
        for _ in 0..count {
            shown.push(letter)?;
        }
        return Ok(());
    }
    write!(shown, "<{count}*{letter}>")?;
    Ok(())
}

// Shows letters that come often one after another but once.
fn counted(alloc: Global, text: &str) -> Result<String> {
    let mut shown = String::new(alloc);
    let mut last = None;
    let mut count: usize = 0;
    for letter in text.chars() {
        if last == Some(letter) {
            count = count.saturating_add(1);
            continue;
        }
        if let Some(before) = last {
            push_letters(&mut shown, before, count)?;
        }
        last = Some(letter);
        count = 1;
    }
    if let Some(before) = last {
        push_letters(&mut shown, before, count)?;
    }
    Ok(shown)
}

// Shows bytes that are no text: `%` and two digits for each one that isn't printed.
fn encoded(alloc: Global, bytes: &[u8]) -> Result<String> {
    let mut text = String::new(alloc);
    percent_encode(bytes, CONTROLS).append_to(&mut text)?;
    Ok(text.replace(alloc, "%0D%0A", "|")?)
}

/// Shows what was sent: `|` is the end of a line of HTTP, `<200*a>` stands for 200 letters `a`, and where it is no text, as the
/// frames of a WebSocket, `%81` for the byte 129.
pub fn shown(alloc: Global, bytes: &[u8]) -> Result<String> {
    if bytes.is_empty() {
        return Ok(String::from_str(alloc, "nothing")?);
    }
    let Ok(text) = str::from_utf8(bytes) else {
        return encoded(alloc, bytes);
    };
    counted(alloc, text.replace(alloc, "\r\n", "|")?.as_str())
}
