//! Which pieces of a payload of several files are wanted.
#![tactic(auto)]

mod pieces;
mod selection;

pub use pieces::{all_wanted, wanted_row};
pub use selection::selected;
