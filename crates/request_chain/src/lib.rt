//! The requests that bring parts of resources, one after the other over one link: what is asked next, where a resource
//! was moved to, and what came.
#![tactic(auto)]

mod asking;
mod chain;
mod content;
mod course;
mod exchange;
mod inbox;
mod keeping;
mod laws;
mod probing;
mod reading;
mod receiving;
mod redirect;
mod room;
mod stage;

pub use chain::{Chain, ChainRead};
pub use course::REDIRECT_LIMIT;
pub use exchange::link_loss;
pub use laws::{fetched_is_one, limits_are_told, links_keep_answers, requests_receive_little};
pub use probing::probe;
pub use reply_reader::Loss;
pub use room::ChainRoom;
