// Bytes that are written as text.
use percent_encoding::{AsciiSet, CONTROLS, ascii_set, percent_encode};
use sha1::Sha1;
use std::alloc::{AllocError, Global};
use test_lines::Output;

/// What is shown as `%` and two digits.
const HIDDEN: AsciiSet = ascii_set!(CONTROLS.add(b'%').add(b'|'));

/// More bytes are told by their digest.
const MANY: usize = 300;

/// The bytes that parts spell, where `|` is the end of a line of HTTP.
pub fn spelled(alloc: Global, parts: &str) -> Vec<u8> {
    match parts.replace(alloc, '|', "%0D%0A") {
        Ok(parts) => test_lines::spelled(alloc, parts.as_str()),
        Err(_) => Vec::new(alloc),
    }
}

fn shown(alloc: Global, bytes: &[u8]) -> Result<String, AllocError> {
    let mut text = String::new(alloc);
    percent_encode(bytes, HIDDEN).append_to(&mut text)?;
    text.replace(alloc, "%0D%0A", "|")
}

/// Adds bytes as they are spelled: many of them by their number and their SHA-1 digest.
pub fn add_shown(alloc: Global, bytes: &[u8], output: &mut Output) {
    if bytes.len() > MANY {
        output.number(bytes.len() as u64);
        output.text(" bytes of ");
        output.hex_bytes(alloc, Sha1::digest(bytes).as_slice());
    } else if let Ok(text) = shown(alloc, bytes) {
        output.text(text.as_str());
    }
}

/// Answers to one question in several ways: the first one, and each other that differs from it.
#[derive(Drop)]
pub struct Answers {
    asked: bool,
    first: Output,
    others: Output,
}

fn text_of(output: &Output) -> &str {
    output.written().unwrap_or("out of memory")
}

impl Answers {
    /// No answers.
    pub fn new(alloc: Global) -> Answers {
        Answers {
            asked: false,
            first: Output::new(alloc),
            others: Output::new(alloc),
        }
    }

    /// Adds an answer, and in which way it was asked for.
    pub fn add(&mut self, answer: &Output, way: u64) {
        if !self.asked {
            self.asked = true;
            self.first.text(text_of(answer));
        } else if text_of(&self.first) != text_of(answer) {
            self.others.counted(" AT ", way);
            self.others.text(": ");
            self.others.text(text_of(answer));
        }
    }

    /// Adds what was answered.
    pub fn add_to(&self, output: &mut Output) {
        output.text(text_of(&self.first));
        output.text(text_of(&self.others));
    }
}
