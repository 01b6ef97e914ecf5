//! The turns of a run: what may be asked of it, what it answers, and what a turn may do by the turns before it.
#![tactic(auto)]

mod laws;
mod limits;
mod operations;
mod outcome;

pub use laws::{
    active_downloads_are_going, downloads_go_on_once, faults_are_told, limits_are_told,
    turns_tell_runs, worked_turns_are_told,
};
pub use limits::{MAX_ALLOWANCE, MAX_DELIVERY, MAX_ENTRIES};
pub use operations::{Answer, FetchGrant, Grant, Operation, Said};
pub use outcome::Outcome;
