//! How many turns a worker takes, beside the events that come in them and the bytes that its
//! link receives. Laws alone.
#![tactic(auto)]

mod laws;

pub use laws::{
    leisure_is_active, lone_turns_are_bounded, lone_workers_claim_once, solo_runs_are_busy,
    solo_runs_find_offers, solo_turns_are_bounded, turns_are_bounded,
};
