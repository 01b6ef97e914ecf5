//! The options of the downloader: one table of them, how their values are read and shown, and the values that are set.
#![tactic(auto)]

mod files;
mod kinds;
mod laws;
mod numbers;
mod options;
mod setting;
mod settings;
mod table;

pub use files::{FileRange, MAX_FILES, file_range};
pub use kinds::{Change, Num, Opt, Rule, Scope, Spelling, Word, WordUse};
pub use laws::{limits_are_told, names_are_apart};
pub use options::Options;
pub use setting::{OptErr, Setting, read};
pub use settings::Settings;
pub use table::{NumRow, Row, WordRow};
