//! What the things of the outside failed at, for those who read why a run didn't do what it was asked to.
#![tactic(auto)]

mod notes;
mod why;

pub use notes::{MOST_NOTES, Note, Noted, Notes};
pub use why::Why;
