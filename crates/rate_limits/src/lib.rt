//! How fast the downloads of a run may go: one bucket for all of them, and one for each.
#![tactic(auto)]

mod limits;

pub use limits::RateLimits;
