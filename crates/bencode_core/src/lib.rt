//! Bencoding (BEP 3): values, the one spelling of each, and the first fault of bytes that spell none.
#![tactic(auto)]

mod ben;
mod checking;
mod fault;
mod laws;
mod reading;
mod scalars;
mod search;
mod slice;
mod writing;

pub use ben::{Ben, BenKind, Member};
pub use fault::BenErr;
pub use laws::{limits_are_told, no_spelling_begins_another, one_spelling, reads_what_is_spelled};
pub use reading::MAX_DEPTH;
pub use slice::BenSlice;
