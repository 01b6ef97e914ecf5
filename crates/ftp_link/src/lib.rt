//! Files on FTP servers over links: a part of one, and how long it is.
#![tactic(auto)]

mod dialogue;
mod probing;
mod reading;
mod room;
mod stage;
mod talk;

pub use probing::probe;
pub use reply_reader::Loss;
pub use request_chain::ChainRead;
pub use room::{FtpRoom, MAX_REPLY_BYTES};
pub use talk::FtpTalk;
