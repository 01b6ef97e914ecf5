// Disks in memory, and what they read, as text.
use crate::letters;
use anyhow::{Context, Result};
use dl_disk::MemDisk;
use dl_kinds::{Blob, Text};
use std::alloc::Global;

// The bytes that a text writes: letters, hexadecimal digits behind a `#`, or nothing.
fn bytes_of(alloc: Global, text: &str) -> Result<Vec<u8>> {
    if text.is_empty() {
        return Ok(Vec::new(alloc));
    }
    match text.strip_prefix("#") {
        Some(digits) => Ok(hex::decode(alloc, digits)?),
        None => letters::read(alloc, text),
    }
}

// A file by its name, and what it holds.
fn file_of(alloc: Global, text: &str) -> Result<(Text, Blob)> {
    let (name, content) = text.split_once('=').context("a content is wanted")?;
    Ok((
        Text::of(alloc, name)?,
        Blob::wrap(bytes_of(alloc, content)?),
    ))
}

/// A disk with these files, parted by spaces, of which the calls of these numbers fail.
pub fn disk_of(alloc: Global, text: &str, failing: Vec<u64>) -> Result<MemDisk> {
    let mut files = Vec::new(alloc);
    for file in text.split(' ') {
        if !file.is_empty() {
            files.push(file_of(alloc, file)?)?;
        }
    }
    Ok(MemDisk::new(alloc, files, failing)?)
}

/// What becomes of each change that a crash may lose: these bytes by turns.
pub fn fates_of(alloc: Global, text: &str) -> Result<Vec<u8>> {
    let mut turns = Vec::new(alloc);
    for word in text.split(' ') {
        turns.push(word.parse::<u8>()?)?;
    }
    Ok(turns.repeat(alloc, 100)?)
}

/// What the disk reads of a file: none, letters, or the hexadecimal digits of a control file.
pub fn shown_file(alloc: Global, disk: &MemDisk, name: &str) -> Result<String> {
    match disk.file(name) {
        None => Ok(String::from_str(alloc, "none")?),
        Some(bytes) if name.ends_with(".aria2") => Ok(hex::encode(alloc, bytes)?),
        Some(bytes) => letters::shown(alloc, bytes),
    }
}
