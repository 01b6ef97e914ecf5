// Bencoded values and their first faults (BEP 3).
ghost use Rattle.std.specs.Prelude.{◌<◌, ◌^◌, length};

use crate::spelling::{add_shown, spelled};
use bencode_core::{Ben, BenErr, BenKind, BenSlice};
use std::alloc::Global;
use test_lines::{Output, after, before};

/// More bytes than any case has.
const MOST: usize = 1 << 26;

/// Adds why bytes are no bencoded value.
pub fn add_fault(fault: BenErr, output: &mut Output) {
    match fault {
        BenErr::Wrong { at } => output.counted("wrong at ", at as u64),
        BenErr::TooDeep { at } => output.counted("too deep at ", at as u64),
        BenErr::TooWide { at } => output.counted("too wide at ", at as u64),
        BenErr::Trailing { at } => output.counted("trailing at ", at as u64),
        BenErr::NoMemory => output.text("out of memory"),
    }
}

fn add_keys(alloc: Global, value: &Ben, output: &mut Output) {
    output.counted("dictionary of ", value.members().len() as u64);
    output.text(":");
    for member in value.members() {
        output.text(" ");
        add_shown(alloc, &member.key, output);
    }
}

fn add_content(alloc: Global, value: &Ben, output: &mut Output) {
    match value.kind() {
        BenKind::Integer => {
            output.text("integer ");
            output.debug(&value.integer().unwrap_or(0));
        }
        BenKind::String => {
            output.text("string ");
            add_shown(alloc, value.string().unwrap_or(b""), output);
        }
        BenKind::List => output.counted("list of ", value.items().len() as u64),
        BenKind::Dict => add_keys(alloc, value, output),
    }
}

fn add_value(alloc: Global, value: &Ben, output: &mut Output) {
    let (start, end) = value.span();
    output.number(start as u64);
    output.counted(" to ", end as u64);
    output.text(", ");
    add_content(alloc, value, output);
}

// Whether the reader that copies nothing reads the same value there.
fn is_same_slice(bytes: &[u8], value: &Ben) -> bool
    requires { length bytes.now < 2 ^ 32 }
{
    match BenSlice::read(bytes) {
        Ok(slice) => slice.span() == value.span() && slice.kind() == value.kind(),
        Err(_) => false,
    }
}

// Whether the reader that copies nothing finds the same fault.
fn is_same_fault(bytes: &[u8], fault: BenErr) -> bool
    requires { length bytes.now < 2 ^ 32 }
{
    match BenSlice::read(bytes) {
        Ok(_) => false,
        Err(other) => other == fault,
    }
}

fn is_written(alloc: Global, bytes: &[u8], value: &Ben) -> bool {
    match value.write(alloc) {
        Ok(written) => written.as_slice() == bytes,
        Err(_) => false,
    }
}

// Adds what is read of bytes. A value has to be written as it was read, and the reader that copies nothing has to read the
// same.
fn add_read(alloc: Global, bytes: &[u8], output: &mut Output)
    requires { length bytes.now < 2 ^ 32 }
{
    match Ben::read(alloc, bytes) {
        Ok(value) => {
            if !is_same_slice(bytes, &value) || !is_written(alloc, bytes, &value) {
                output.text("ANOTHER VALUE ");
            }
            add_value(alloc, &value, output);
        }
        Err(fault) => {
            if !is_same_fault(bytes, fault) {
                output.text("ANOTHER FAULT ");
            }
            add_fault(fault, output);
        }
    }
}

/// Adds what is read of the bytes that parts spell.
pub fn add_reading(alloc: Global, parts: &str, output: &mut Output) {
    let bytes = spelled(alloc, parts);
    if bytes.len() < MOST {
        add_read(alloc, &bytes, output);
    }
}

// The value to which steps lead, between which `/` stands: numbers of items, and keys.
fn found<'a>(value: &'a Ben, path: &str) -> Option<&'a Ben> {
    let mut here = value;
    for step in path.split('/') {
        here = match here.kind() {
            BenKind::List => here.items().get(step.parse::<usize>().ok()?)?,
            _ => here.member(step.as_bytes())?,
        };
    }
    Some(here)
}

fn add_found(alloc: Global, value: &Ben, path: &str, output: &mut Output) {
    match found(value, path) {
        Some(value) => add_value(alloc, value, output),
        None => output.text("nothing"),
    }
}

/// Adds what stands at a path in a value.
pub fn add_looking(alloc: Global, rest: &str, output: &mut Output) {
    let bytes = spelled(alloc, after(rest, ' '));
    if bytes.len() < MOST {
        if let Ok(value) = Ben::read(alloc, &bytes) {
            add_found(alloc, &value, before(rest, ' '), output);
        }
    }
}
