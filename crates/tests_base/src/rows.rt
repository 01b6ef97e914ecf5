// Rows of truth values.
use bit_rows::{BitErr, BitRow};
use std::alloc::Global;
use test_lines::{Output, after, before, number, u32_at, word};

/// What a line asks of a row.
#[derive(Clone, Copy)]
pub enum RowLine {
    Row,
    Turn,
    Zeros,
    Next,
}

// The row that digits write, of so many values.
fn row_of(alloc: Global, digits: &str, len: u32) -> Result<BitRow, BitErr> {
    match hex::decode(alloc, digits) {
        Ok(bytes) => BitRow::from_bytes(alloc, &bytes, len),
        Err(_) => Err(BitErr::NoMemory),
    }
}

fn add_places(row: &BitRow, output: &mut Output) {
    output.number(row.len() as u64);
    output.text(" values, true:");
    for place in 0..row.len() {
        if row.get(place) {
            output.counted(" ", place as u64);
        }
    }
}

// Adds how many values there are, the places of the true ones, how many these are, and the bytes of a copy.
fn add_row(alloc: Global, row: &BitRow, output: &mut Output) {
    add_places(row, output);
    output.counted("; ", row.count_ones() as u64);
    output.text(" of them; bytes ");
    if let Ok(copy) = row.copy(alloc) {
        output.hex_bytes(alloc, copy.bytes());
    }
}

// Adds the first run of false from a place on.
fn add_zeros(row: &BitRow, from: u32, output: &mut Output) {
    match row.first_zero_run(from) {
        Some((first, count)) => {
            output.number(first as u64);
            output.counted("+", count as u64);
        }
        None => output.text("none"),
    }
}

// Adds the first place between two with this value.
fn add_next(row: &BitRow, rest: &str, output: &mut Output) {
    let (from, to) = (u32_at(rest, 2), u32_at(rest, 3));
    if to <= row.len() {
        output.number(row.next_within(from, to, word(rest, 4) == "true") as u64);
    }
}

// Makes a value true, or behind `-` false.
fn turn(row: &mut BitRow, word: &str) {
    let place = u32_at(word.strip_prefix('-').unwrap_or(word), 0);
    if place >= row.len() {
        return;
    }
    if word.starts_with('-') {
        row.clear(place);
    } else {
        row.set(place);
    }
}

fn turn_all(row: &mut BitRow, words: &str) {
    if !words.is_empty() {
        for word in words.split(' ') {
            turn(row, word);
        }
    }
}

// Adds a row of false, whose values are made true, or false again.
fn add_turned(alloc: Global, rest: &str, output: &mut Output) {
    if let Ok(mut row) = BitRow::new(alloc, number(before(rest, ' ')).min(1 << 20) as u32) {
        turn_all(&mut row, after(rest, ' '));
        add_row(alloc, &row, output);
    }
}

fn add_refusal(refused: BitErr, output: &mut Output) {
    output.text(match refused {
        BitErr::Spare => "spare bits",
        BitErr::Length => "another length",
        BitErr::NoMemory => "out of memory",
    });
}

// Adds what is asked of the row that digits write.
fn add_read(alloc: Global, kind: RowLine, rest: &str, output: &mut Output) {
    match row_of(alloc, word(rest, 0), u32_at(rest, 1)) {
        Ok(row) => match kind {
            RowLine::Zeros => add_zeros(&row, u32_at(rest, 2), output),
            RowLine::Next => add_next(&row, rest, output),
            _ => add_row(alloc, &row, output),
        },
        Err(refused) => add_refusal(refused, output),
    }
}

/// Adds what comes of a line on rows.
pub fn add_row_line(alloc: Global, kind: RowLine, rest: &str, output: &mut Output) {
    match kind {
        RowLine::Turn => add_turned(alloc, rest, output),
        _ => add_read(alloc, kind, rest, output),
    }
}
