//! What is kept of one download of a run, changed with each of its events.
#![tactic(auto)]

mod choices;
mod choosing;
mod download;
mod halts;
mod laws;
mod payload;
mod rows;

pub use choices::{Choice, Split};
pub use download::OneDownload;
pub use laws::steps_match_events;
