//! One run of blocks, fetched over one link: its whole blocks as they come, and why the rest of them didn't.
#![tactic(auto)]

mod blocks;
mod fetch;
mod laws;
mod probing;
mod room;
mod source;

pub use fetch::{Fetch, Got};
pub use laws::{handed_bytes_are_fetched, limits_are_told};
pub use probing::probe;
pub use reply_reader::Loss;
pub use room::FetchRoom;
