//! Heads of HTTP messages: of requests, as they come from a client, and what they say, and of replies, as they come from
//! a server.
#![tactic(auto)]

mod ask_head;
mod content;
mod fields;
mod head;
mod laws;
mod limits;
mod members;
mod persistence;
mod target;

pub use ask_head::{AskHead, AskRead, read_ask_head};
pub use content::{ContentLength, content_length};
pub use fields::{field_names, sole_field};
pub use head::{Head, HeadRead, read_head};
pub use laws::{ask_heads_are_one_and_stay, heads_are_one_and_stay, limits_are_told};
pub use limits::{MAX_HEAD_BYTES, MAX_HEAD_FIELDS};
pub use persistence::hangs_up;
