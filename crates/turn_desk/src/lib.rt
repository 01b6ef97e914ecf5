//! Turns of one state, which one owner or several threads take.
#![tactic(auto)]

mod chair;
mod close;
mod desk;
mod gates;
mod laws;
mod pass;
mod rule;
mod served;
mod solo;
mod start;
mod turn;
mod turn_desk;

pub use chair::Chair;
pub use close::Closed;
pub use desk::Desk;
pub use laws::{
    a_sole_owner_took_all, each_turn_has_one_pass, own_turns_are_placed,
    own_turns_keep_their_order, turns_add_up,
};
pub use pass::Pass;
pub use served::Served;
pub use solo::SoloDesk;
pub use turn::{Given, Sight, Stamp, Turn};
pub use turn_desk::TurnDesk;
