//! What the words behind the program's name ask for: a run of downloads, a load, a folder to serve, or a check.
#![tactic(auto)]

mod laws;
mod meanings;
mod modes;

pub use laws::load_words_are_no_line;
pub use meanings::{Meaning, meaning_of};
pub use modes::{CheckLine, ServeLine};
