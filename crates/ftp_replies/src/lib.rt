//! Replies of an FTP server, as their bytes come, and what their last lines tell.
#![tactic(auto)]

mod address;
mod front;
mod laws;
mod limits;
mod line;
mod lines;
mod reply;
mod size;

pub use address::passive_port;
pub use laws::{limits_are_told, lines_tell_one_thing, replies_are_one_and_stay};
pub use limits::{MAX_LINE_BYTES, MAX_REPLY_LINES, SIZE_LIMIT};
pub use lines::last_line;
pub use reply::{ReplyRead, read_reply};
pub use size::told_size;
