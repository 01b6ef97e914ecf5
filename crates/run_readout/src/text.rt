// How a line of progress reads, in the manner of aria2's.
use crate::progress::Shown;
use std::alloc::{AllocError, Global};
use std::fmt::Write;

const SMALL_UNITS: [&str; 3] = ["Ki", "Mi", "Gi"];

// A count of tenths of a unit.
fn scaled(alloc: Global, tenths: u64, unit: &str) -> Result<String, AllocError> {
    let mut text = String::new(alloc);
    write!(text, "{}.{}{unit}B", tenths / 10, tenths % 10)?;
    Ok(text)
}

/// A count of bytes, as `12B` or `1.5MiB`: with one decimal from a KiB on, cut and not rounded.
pub fn size_text(alloc: Global, bytes: u64) -> Result<String, AllocError> {
    if bytes < 1024 {
        let mut text = String::new(alloc);
        write!(text, "{bytes}B")?;
        return Ok(text);
    }
    let mut tenths = bytes.saturating_mul(10) / 1024;
    for unit in SMALL_UNITS {
        if tenths < 10_240 {
            return scaled(alloc, tenths, unit);
        }
        tenths /= 1024;
    }
    scaled(alloc, tenths, "Ti")
}

/// A count of seconds, as `1h2m3s`, without the parts in front that are 0.
pub fn time_text(alloc: Global, seconds: u64) -> Result<String, AllocError> {
    let (hours, minutes, rest) = (seconds / 3600, seconds / 60 % 60, seconds % 60);
    let mut text = String::new(alloc);
    if hours > 0 {
        write!(text, "{hours}h")?;
    }
    if hours > 0 || minutes > 0 {
        write!(text, "{minutes}m")?;
    }
    write!(text, "{rest}s")?;
    Ok(text)
}

/// The line: bytes that are here, of all and in percent where that is known, connections, bytes a second, and how long the
/// rest takes at this speed.
pub fn readout(alloc: Global, shown: Shown, speed: u64) -> Result<String, AllocError> {
    let mut line = String::new(alloc);
    write!(line, "[{}", size_text(alloc, shown.done)?)?;
    if shown.total > 0 {
        let percent = shown.done.saturating_mul(100) / shown.total;
        write!(line, "/{}({percent}%)", size_text(alloc, shown.total)?)?;
    }
    write!(line, " CN:{} DL:{}", shown.open, size_text(alloc, speed)?)?;
    if speed > 0 && shown.total > shown.done {
        let left = (shown.total - shown.done) / speed;
        write!(line, " ETA:{}", time_text(alloc, left)?)?;
    }
    line.push(']')?;
    Ok(line)
}
