//! Which claim an idle worker steals of, and what it takes.
#![tactic(auto)]

mod choice;
mod theft;

pub use choice::victim;
pub use theft::Steal;
