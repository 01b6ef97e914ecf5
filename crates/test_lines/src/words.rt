// The words of a line, between single spaces.
use std::alloc::Global;

/// The word at a place of a line; empty where there is none.
pub fn word(line: &str, place: usize) -> &str {
    line.split(' ').nth(place).unwrap_or("")
}

/// What stands behind the first mark of a text; empty where it has none.
pub fn after(text: &str, mark: char) -> &str {
    match text.split_once(mark) {
        Some((_, behind)) => behind,
        None => "",
    }
}

/// What stands before the first mark of a text; all of it where it has none.
pub fn before(text: &str, mark: char) -> &str {
    match text.split_once(mark) {
        Some((front, _)) => front,
        None => text,
    }
}

/// The number that decimal digits write, maybe with a sign; 0 where they write none of 64 bits.
pub fn signed(digits: &str) -> i64 {
    digits.parse::<i64>().unwrap_or(0)
}

/// The number that decimal digits write; 0 where they write none below 2^64.
pub fn number(digits: &str) -> u64 {
    digits.parse::<u64>().unwrap_or(0)
}

/// The number at a place of a line; 0 where none stands there.
pub fn u64_at(line: &str, place: usize) -> u64 {
    number(word(line, place))
}

/// The number at a place of a line, at most 2^32 - 1.
pub fn u32_at(line: &str, place: usize) -> u32 {
    u64_at(line, place).min(u64::from(u32::MAX)) as u32
}

/// The number at a place of a line, at most 2^16 - 1.
pub fn u16_at(line: &str, place: usize) -> u16 {
    u64_at(line, place).min(u64::from(u16::MAX)) as u16
}

/// The numbers that a word has between commas, each at most 2^16 - 1; none where memory is wanting.
pub fn u16s(alloc: Global, word: &str) -> Vec<u16> {
    let mut numbers = Vec::new(alloc);
    for part in word.split(',') {
        if numbers
            .push(number(part).min(u64::from(u16::MAX)) as u16)
            .is_err()
        {
            return Vec::new(alloc);
        }
    }
    numbers
}

/// The numbers that words have, each at most 2^32 - 1; none where memory is wanting.
pub fn u32s(alloc: Global, words: &str, mark: char) -> Vec<u32> {
    let mut numbers = Vec::new(alloc);
    for part in words.split(mark) {
        if numbers.push(u32_at(part, 0)).is_err() {
            return Vec::new(alloc);
        }
    }
    numbers
}

/// What a word means by a table, and otherwise.
pub fn keyword<K: Copy>(table: &[(&str, K)], word: &str, otherwise: K) -> K {
    for (name, meaning) in table {
        if *name == word {
            return *meaning;
        }
    }
    otherwise
}

/// The word that means a value by a table; empty where none does.
pub fn name_of<'a, K: PartialEq>(table: &[(&'a str, K)], value: &K) -> &'a str {
    for (name, meaning) in table {
        if *meaning == *value {
            return *name;
        }
    }
    ""
}
