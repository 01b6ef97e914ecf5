//! A worker: it takes turns of a run at a desk, and does over one link what their answers ask.
#![tactic(auto)]

mod due;
mod ends;
mod fetching;
mod following;
mod hands;
mod keeping;
mod laws;
mod parts;
mod probing;
mod state;
mod turning;
mod working;

pub use ends::{IDLE_PAUSE, Spent, WorkEnd};
pub use keeping::keep_work;
pub use laws::{
    answers_are_sound, limits_are_told, links_receive_what_is_allowed, turns_bring_what_came,
};
pub use parts::{LEAST_PART, QUICK_STEP, SLOW_STEP};
pub use state::WorkState;
pub use turning::work_once;
pub use working::{MAX_TURNS, work};
