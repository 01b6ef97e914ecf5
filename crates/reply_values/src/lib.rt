//! What comes of the console's calls, as values of JSON: by their replies, and the keys that were asked for.
#![tactic(auto)]

mod files;
mod laws;
mod members;
mod outcomes;
mod stats;
mod statuses;
mod texts;

pub use laws::{outcomes_are_plain, worked_replies_have_texts};
pub use outcomes::{methods_outcome, reply_value};
