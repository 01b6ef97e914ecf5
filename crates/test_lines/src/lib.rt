//! What programs of test cases have in common: the words of a line, keywords, what is printed, and the files of cases.
//!
//! Nothing here fails half-way, so that a program of cases is a straight line: where a line lacks a word or a number, the
//! word is empty and the number 0, and the case prints something else than is wanted.
#![tactic(auto)]

mod cases;
mod output;
mod spelling;
mod values;
mod words;

pub use cases::{Trial, print_all, says, texts, try_files};
pub use output::Output;
pub use spelling::{spelled, spelled_text};
pub use values::{discard, set, set_some};
pub use words::{
    after, before, keyword, name_of, number, signed, u16_at, u16s, u32_at, u32s, u64_at, word,
};
