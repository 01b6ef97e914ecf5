//! Those who take part in a desk of several threads, each with a pass, an edge to the outside, and what comes of it.
#![tactic(auto)]

mod both;
mod participants;
mod rooms;

pub use both::for_each_of_both;
pub use participants::{Participant, seat_all, unseat_all};
pub use rooms::{Room, room_for};
