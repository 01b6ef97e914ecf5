//! What reads one part of a resource over a link: requests, or a dialogue with an FTP server, as its URL says.
#![tactic(auto)]

mod ask;
mod probing;
mod reader;
mod rooms;

pub use ask::{PartAsk, ask_for};
pub use reader::PartReader;
pub use reply_reader::Loss;
pub use request_chain::ChainRead;
pub use rooms::PartRooms;
