// What a program of cases prints.
use std::alloc::Global;
use std::fmt::Debug;

/// What is to be printed. A growth that is refused is remembered to the end.
#[derive(Drop)]
pub struct Output {
    text: String,
    lost: bool,
}

impl Output {
    /// Nothing yet.
    pub fn new(alloc: Global) -> Output {
        Output {
            text: String::new(alloc),
            lost: false,
        }
    }

    /// What is to be printed, unless a growth was refused.
    pub fn written(&self) -> Option<&str> {
        if self.lost {
            None
        } else {
            Some(self.text.as_str())
        }
    }

    /// Adds a text.
    pub fn text(&mut self, text: &str) {
        if self.text.push_str(text).is_err() {
            self.lost = true;
        }
    }

    /// Adds a letter.
    pub fn letter(&mut self, letter: char) {
        if self.text.push(letter).is_err() {
            self.lost = true;
        }
    }

    /// Adds a number in decimal digits.
    pub fn number(&mut self, number: u64) {
        if write!(self.text, "{number}").is_err() {
            self.lost = true;
        }
    }

    /// Adds a text, and a number behind it.
    pub fn counted(&mut self, text: &str, number: u64) {
        self.text(text);
        self.number(number);
    }

    /// Adds `true` or `false`.
    pub fn truth(&mut self, truth: bool) {
        self.text(if truth { "true" } else { "false" });
    }

    /// Adds a number in hexadecimal digits.
    pub fn hex(&mut self, number: u64) {
        if write!(self.text, "{number:x}").is_err() {
            self.lost = true;
        }
    }

    /// Adds the hexadecimal digits of bytes.
    pub fn hex_bytes(&mut self, alloc: Global, bytes: &[u8]) {
        match hex::encode(alloc, bytes) {
            Ok(digits) => self.text(digits.as_str()),
            Err(_) => self.lost = true,
        }
    }

    /// Adds a value as it is derived.
    pub fn debug<T: Debug>(&mut self, value: &T) {
        if write!(self.text, "{value:?}").is_err() {
            self.lost = true;
        }
    }
}
