// Payloads, whose bytes say where they stand.
use anyhow::Result;
use std::alloc::Global;

// The byte at a place.
fn byte_at(place: usize) -> u8 {
    ((place % 256 * 7 + place / 251 % 256) % 256) as u8
}

/// A payload of this length.
pub fn payload(alloc: Global, len: usize) -> Result<Vec<u8>> {
    let mut bytes = Vec::with_capacity(alloc, len)?;
    for place in 0..len {
        bytes.push(byte_at(place))?;
    }
    Ok(bytes)
}

/// Turns the bytes at these places to others; those past the end say nothing.
pub fn turn(bytes: &mut [u8], places: &[usize]) {
    for place in places {
        if *place < bytes.len() {
            bytes[*place] ^= 1;
        }
    }
}

/// The numbers that words spell, between spaces.
pub fn numbers(alloc: Global, words: &str) -> Result<Vec<usize>> {
    let mut numbers = Vec::new(alloc);
    for word in words.split(' ') {
        numbers.push(word.parse::<usize>()?)?;
    }
    Ok(numbers)
}
