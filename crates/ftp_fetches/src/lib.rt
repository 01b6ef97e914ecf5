//! What came of a file on an FTP server, by the exchanges of a dialogue and its data.
#![tactic(auto)]

mod laws;

pub use laws::{dialogues_are_one, fetched_bytes_fit_their_part, nothing_heard_is_due};
