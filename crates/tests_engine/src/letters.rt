// Bytes as letters, with how many of each stand in a row: `a*2,b*1` is `aab`. A byte of 0 is shown as a dot.
use anyhow::{Context, Result};
use std::alloc::Global;

/// The bytes that the text writes.
pub fn read(alloc: Global, text: &str) -> Result<Vec<u8>> {
    let mut bytes = Vec::new(alloc);
    for run in text.split(',') {
        let (letter, count) = run.split_once('*').context("a count is wanted")?;
        let many = letter.as_bytes().repeat(alloc, count.parse::<usize>()?)?;
        bytes.extend_from_slice(&many)?;
    }
    Ok(bytes)
}

// Adds a run of a letter to the text.
fn push_run(text: &mut String, letter: u8, count: u32) -> Result<()> {
    if count == 0 {
        return Ok(());
    }
    let comma = if text.is_empty() { "" } else { "," };
    let letter = if letter == 0 { '.' } else { letter as char };
    write!(text, "{comma}{letter}*{count}")?;
    Ok(())
}

/// The text that writes the bytes.
pub fn shown(alloc: Global, bytes: &[u8]) -> Result<String> {
    let mut text = String::new(alloc);
    let mut letter = 0;
    let mut count: u32 = 0;
    for byte in bytes {
        if *byte != letter {
            push_run(&mut text, letter, count)?;
            letter = *byte;
            count = 0;
        }
        count = count.saturating_add(1);
    }
    push_run(&mut text, letter, count)?;
    Ok(text)
}
